// What is read of the graph that an arena holds: the functions of model/specs/Strength.antt's
// `View`, the tests on nodes that the comparison's lines name, and the walks up parents and
// origins. It never refuses and never writes: each function requires a node of that graph, which
// its callers prove. `root` is the local root's number, 0 for none, that a caller reads once.
// fields.rt has a node's own fields; relations.rt whether it is authored, implied or propagated;
// sites.rt its site and its parent's; origins.rt chains of origins; classes.rt class hierarchies;
// parting.rt chains of parents. specs/View.antt has the view of an arena and what "a node of it"
// means.
#![tactic(auto)]

mod classes;
mod fields;
mod origins;
mod parting;
mod relations;
mod sites;

pub use classes::{class_depth, starting_node_of_class_hierarchy};
pub use fields::{arc, depth, has_specializes, origin, parent, rank, sibling};
pub use origins::{OriginRoot, origin_root_node, origins_are_nested};
pub use parting::{Parting, is_ancestor_of, part_chains};
pub use relations::{is_authored, is_class_based, is_implied, is_propagated_specializes};
pub use sites::{depth_below, in_local_stack, same_site};
