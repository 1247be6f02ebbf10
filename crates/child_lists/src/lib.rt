// Child lists (document 01: chains) as links in an arena. check.rt: whether the links write each
// node's list; append.rt: one node more, last in its parent's list; links.rt and store.rt: the
// links that lists in an array make. Nothing is refused here: callers have put the questions.
// specs/ChildLists.antt says which links are right; specs/Append.antt and Links.antt what is
// stored.
#![tactic(auto)]

mod append;
mod check;
mod links;
mod store;

pub use append::append_node;
pub use check::are_valid;
pub use links::{link_lists, write_entries, write_links};
pub use store::store_lists;
