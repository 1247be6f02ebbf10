// The command `calls`: answers the calls that standard input names, one a line, with a line for
// each on standard output. Nothing is proved of what is printed, only that every function is safe
// and ends: none has a `requires`. `stdin` and `stdout` are the stored examples.
#![tactic(auto)]

mod input;
mod lines;

fn main(rt: HostRuntime) {
    input::answer_input(&mut rt.stdin(), &mut rt.stdout());
}
