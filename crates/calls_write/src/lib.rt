// The lines of the command `calls` that write a graph: make.rt has those that make one, change.rt
// those that order, cull, erase and deepen it, setting.rt those that set fields of one node. Each
// function is handed a line that has its name and its number of words, makes the call, and puts the
// answer into `out`, without a newline. An `answer` says whether the line is of a kind that it
// knows, and puts nothing where it is not. No function has a `requires`.
#![tactic(auto)]

pub mod change;
mod erasures;
mod fields;
pub mod make;
mod orders;
mod setting;
