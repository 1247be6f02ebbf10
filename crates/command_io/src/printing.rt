// What a command prints. Where standard output cannot be written it says so on standard error,
// after its own name, and ends as ever: no exit status says it. No function here has an `ensures`:
// what they are lent they cannot change, they answer nothing, and of what comes out of a program
// the library says nothing to cite. examples/order tests it.
use model::Refusal;
use std::io;
use std::io::Write;

// Says on standard error what failed, after the command's name.
pub fn complain<E: Write>(err: &mut E, command: &[u8], what: &[u8]) {
    let _ = err.write_all(command);
    let _ = err.write_all(what);
}

// Says so where a write has failed.
fn report<E: Write>(written: io::Result<()>, err: &mut E, command: &[u8]) {
    if written.is_err() {
        complain(err, command, b": standard output cannot be written\n");
    }
}

// Prints all of `text`.
pub fn print<W: Write, E: Write>(out: &mut W, err: &mut E, command: &[u8], text: &[u8]) {
    report(out.write_all(text), err, command);
}

// Prints `refused` and the question's number.
pub fn print_refusal<W: Write, E: Write>(
    out: &mut W,
    err: &mut E,
    command: &[u8],
    refusal: Refusal,
) {
    print(out, err, command, b"refused ");
    report(write!(out, "{}", refusal.number()), err, command);
    print(out, err, command, b"\n");
}
