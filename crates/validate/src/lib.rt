// Whether bytes are what document 01's questions ask for, on any bytes. record.rt: one record,
// questions 4 to 7; graph.rt: a whole arena, question 2; questions.rt: the questions that calls put
// first. Nothing is written.
#![tactic(auto)]

mod graph;
mod questions;
mod record;

pub use graph::is_graph;
pub use questions::{ask_graph, ask_node, ask_node_zero, ask_nodes, ask_siblings, count};
pub use record::{Before, RecordNumbers, check_record, is_culled, is_inert, with_culled};
