// Nodes: starting a graph, adding to it, setting fields of one node, and what is read of the
// header, of one node or of a site. description.rt has a node that is to be added; calls.rt the
// calls that start, add and read, paths.rt those that give a path, setting.rt those that set. The
// definitions are in model/specs/Node.antt, Graph.antt and Setting.antt.
#![tactic(auto)]

pub mod calls;
mod description;
pub mod paths;
pub mod setting;

pub use description::NodeDesc;
