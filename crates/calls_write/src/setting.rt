// The lines that set fields of one node: its flags, its specs and its restriction depth. Each call
// is none where a word is no number of its field.
use crate::fields::{read_byte, read_optional};
use calls_text::{Output, bad_line, is_call, put_answer, read_number, read_short_number};
use model::Refusal;
use std::io::Write;

// The answer to such a line.
pub(crate) fn answer<W: Write>(line: &[u8], arena: &mut [u8], out: &mut Output<W>) -> bool {
    if is_call(line, b"mark", 3) {
        put_set(mark(line, arena), out);
    } else if is_call(line, b"spec", 3) {
        put_set(spec(line, arena), out);
    } else if is_call(line, b"specs", 3) {
        put_set(specs(line, arena), out);
    } else if is_call(line, b"restrict", 3) {
        put_set(restrict(line, arena), out);
    } else {
        return false;
    }
    true
}

// The answer to a call, or to a line that is none.
fn put_set<W: Write>(set: Option<Result<(), Refusal>>, out: &mut Output<W>) {
    match set {
        Some(answer) => put_answer(out, answer),
        None => bad_line(out),
    }
}

// The node that the line names, and the word after it.
fn node_and_word(line: &[u8]) -> Option<(u32, &[u8])> {
    let mut words = line.split(|byte| *byte == b' ');
    words.next()?;
    Some((read_number(words.next()?)?, words.next()?))
}

// `mark N FLAGS`: flags joined with the node's.
fn mark(line: &[u8], arena: &mut [u8]) -> Option<Result<(), Refusal>> {
    let (n, word) = node_and_word(line)?;
    let flags = read_byte(word)?;
    Some(prim_graph::mark(arena, n, flags))
}

// `spec N FIRST`: the first layer with a spec, `-` for none.
fn spec(line: &[u8], arena: &mut [u8]) -> Option<Result<(), Refusal>> {
    let (n, word) = node_and_word(line)?;
    let first = read_optional(word)?;
    Some(prim_graph::set_first_spec(arena, n, first))
}

// `specs N YES`: whether there are specs, 1 or 0.
fn specs(line: &[u8], arena: &mut [u8]) -> Option<Result<(), Refusal>> {
    let (n, word) = node_and_word(line)?;
    let authored = match word {
        [b'0'] => false,
        [b'1'] => true,
        _ => return None,
    };
    Some(prim_graph::set_has_specs(arena, n, authored))
}

// `restrict N DEPTH`: the restriction depth.
fn restrict(line: &[u8], arena: &mut [u8]) -> Option<Result<(), Refusal>> {
    let (n, word) = node_and_word(line)?;
    let depth = read_short_number(word)?;
    Some(prim_graph::set_restriction_depth(arena, n, depth))
}
