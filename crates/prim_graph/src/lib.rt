// The public library: each call of document 01 on an arena that the caller lends (docs/LAYOUT.md),
// 327,744 bytes. No call has a `requires`: any bytes may be lent, any numbers and paths given. Each
// puts its questions in document 01's order; the first whose answer is no is the refusal, and then
// every lent byte is as it was. What a call answers and leaves is its one function of
// model/specs/Calls.antt, made a call on bytes by model/specs/ArenaCalls.antt.
// Nodes are in crates/nodes: starting, adding, setting fields of one node, what is read of the
// header or of one node, the node that uses a site. The count is in crates/validate, comparisons
// and class hierarchies in crates/strength, the order in crates/ordering, culling in
// crates/culling, erasing in crates/erasing, appending a child's name in crates/deepening,
// snapshots in crates/snapshot. Nothing is defined here.
#![tactic(auto)]

pub use culling::calls::cull_subtrees_without_opinions;
pub use deepening::calls::{append_child_name_to_all_sites, seed_child};
pub use erasing::calls::{erasable, erase};
pub use nodes::NodeDesc;
pub use nodes::calls::{
    GraphInfo, add_child, depth_below_introduction, graph_info, init_root, is_due_to_ancestor,
    node, node_using_site,
};
pub use nodes::paths::{intro_path, path, path_at_introduction};
pub use nodes::setting::{mark, set_first_spec, set_has_specs, set_restriction_depth};
pub use ordering::calls::{finalize_strength_order, order_entry, strength_order};
pub use snapshot::calls::{read_snapshot, write_snapshot};
pub use strength::calls::{
    Hierarchy, compare_node_strength, compare_sibling_node_strength,
    get_propagated_specializes_node, is_ancestor_of, is_propagated_specializes, same_site,
    starting_node_of_class_hierarchy,
};
pub use validate::count;
