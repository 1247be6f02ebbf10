// The text of the command `calls`: the words of a line and the numbers among them (words.rt), bytes
// in hexadecimal (hex.rt), the answers that all lines share (answers.rt) and the output
// (output.rt). What is proved is where `find` stops and that no more bytes wait than the output's
// buffer has, and else only that every function is safe and ends: no public function has a
// `requires`.
#![tactic(auto)]

mod answers;
mod hex;
mod output;
mod words;

pub use answers::{Answer, bad_line, put_answer, put_path, put_refusal};
pub use hex::{put_bytes, read_bytes};
pub use output::{Output, front};
pub use words::{find, is_call, is_dash, read_number, read_short_number, word};
