// What the commands share: the buffers that they lend (buffers.rt), reading an input to its end
// (input.rt), and printing what they answer, a refusal or what failed (printing.rt). They read and
// write through what is passed to them, which in a command are the three standard streams. No public
// function has a `requires`. Proved is that every function is safe and ends, that what was read
// lies within its buffer and, where the input's bytes are known, is all of it, and what is gathered
// in one.
#![tactic(auto)]

mod buffers;
mod input;
mod printing;
#[cfg(test)]
mod tests;

pub use buffers::{append, zeros};
pub use input::{InputError, read_input};
pub use printing::{complain, print, print_refusal};
