// Which of two nodes is the stronger. comparison.rt has the two comparisons, a cycle of functions;
// lines.rt, specializes.rt and same_root.rt are document 01's lists of lines on two siblings, made
// of what verdicts.rt and orderings.rt have; propagated.rt finds the copy of a node under the local
// root. calls.rt has the calls, which put their questions first; what is beside it requires nodes
// of the graph that the arena holds. Nothing is written. `root` is the local root's number, 0 for
// none. The definitions are in model/specs/Strength.antt and Hierarchy.antt; specs/Verdicts.antt
// says what an unsettled answer means.
#![tactic(auto)]

pub mod calls;
mod comparison;
mod lines;
mod orderings;
mod propagated;
mod same_root;
mod specializes;
mod verdicts;

pub use comparison::{compare_node_strength, compare_sibling_node_strength};
pub use orderings::{by_having, by_number};
