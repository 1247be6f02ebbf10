// The command `order` (document 01): reads a snapshot of at most 65,536 bytes from standard input,
// orders its graph, and prints the listing, or `refused` and the number of the first question whose
// answer is no. A byte more is refused 12. Where the input cannot be read, or the output not
// written, it says so on standard error: a part of a snapshot is never taken for the whole, nor a
// read that failed for an empty one.
// Proved is that every function is safe and ends. The listing is listing's, the order prim_graph's,
// each proved there.
#![tactic(auto)]

use command_io::InputError;
use model::Refusal;
use std::io::Write;

// What fails and what is printed, under the command's name.
fn complain<E: Write>(err: &mut E, what: &[u8]) {
    command_io::complain(err, b"order", what);
}

fn print<W: Write, E: Write>(out: &mut W, err: &mut E, text: &[u8]) {
    command_io::print(out, err, b"order", text);
}

fn print_refusal<W: Write, E: Write>(out: &mut W, err: &mut E, refusal: Refusal) {
    command_io::print_refusal(out, err, b"order", refusal);
}

// Prints the listing of an ordered graph.
fn print_listing<W: Write, E: Write>(out: &mut W, err: &mut E, arena: &[u8]) {
    let mut text = command_io::zeros();
    let listed = listing::write_listing(arena, &mut text);
    match listed {
        Ok(length) => print(out, err, &text[..length as usize]),
        Err(refusal) => print_refusal(out, err, refusal),
    }
}

// Orders the graph of a snapshot and prints it.
fn order<W: Write, E: Write>(out: &mut W, err: &mut E, snapshot: &[u8]) {
    let mut arena = command_io::zeros();
    let read = prim_graph::read_snapshot(&mut arena, snapshot);
    if let Err(refusal) = read {
        print_refusal(out, err, refusal);
        return;
    }
    let ordered = prim_graph::finalize_strength_order(&mut arena);
    if let Err(refusal) = ordered {
        print_refusal(out, err, refusal);
        return;
    }
    print_listing(out, err, &arena);
}

fn main(rt: HostRuntime) {
    let mut out = rt.stdout();
    let mut err = rt.stderr();
    let mut bytes = io::large_buffer();
    match command_io::read_input(&mut rt.stdin(), &mut bytes) {
        Ok(count) => order(&mut out, &mut err, &bytes[..count]),
        Err(InputError::Long) => print_refusal(&mut out, &mut err, Refusal::Snapshot),
        Err(InputError::Failed) => complain(&mut err, b": standard input cannot be read\n"),
    }
}
