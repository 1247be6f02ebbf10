// Ordering a graph in its arena, and reading the order. writing.rt sorts each child list
// (crates/sorting) and writes links, order and state; walking.rt walks the lists, parent first;
// calls.rt has the calls. The definitions are in model/specs/Order.antt.
#![tactic(auto)]

pub mod calls;
mod walking;
mod writing;
