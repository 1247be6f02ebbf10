// The lines of the command `calls` that read: paths (paths.rt), what a graph has (look.rt), how its
// nodes compare (compare.rt). Each function is handed a line that has its name and its number of
// words, and puts the answer into `out`, without a newline. An `answer` says whether the line is of a
// kind that it knows, and puts nothing where it is not. No public function has a `requires`.
#![tactic(auto)]

mod children;
pub mod compare;
pub mod look;
pub mod paths;
mod records;
mod relations;
mod rows;
