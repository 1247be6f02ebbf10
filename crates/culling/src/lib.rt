// Culling. deciding.rt: whether one node can be culled; flags.rt: the flags of all nodes, found
// over the unchanged arena and then written; calls.rt: the call. The definitions are in
// model/specs/Culling.antt.
#![tactic(auto)]

pub mod calls;
mod deciding;
mod flags;
