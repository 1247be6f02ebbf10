// The lines on sets of nodes that may be erased.
use calls_text::{Output, bad_line, put_answer, put_refusal, word};
use model::Refusal;
use std::io::Write;

// `erasable`: a digit for each node, 1 for one that may go.
pub(crate) fn erasable_line<W: Write>(arena: &[u8], out: &mut Output<W>) {
    let mut set = [0u8; 1024];
    let found = prim_graph::erasable(arena, &mut set);
    match found {
        Ok(()) => put_set(&set, prim_graph::count(arena), out),
        Err(refusal) => put_refusal(out, refusal),
    }
}

// The bytes of the first nodes, as many as were counted.
fn put_set<W: Write>(set: &[u8], counted: Result<u32, Refusal>, out: &mut Output<W>) {
    let Ok(count) = counted else {
        return;
    };
    for byte in set.iter().take(count as usize) {
        out.put_number(*byte as u64);
    }
}

// `erase BITS`: how many nodes are kept. A node that has no digit stays; any digit is taken as the
// byte that it is, so that a wrong one can be tried.
pub(crate) fn erase_line<W: Write>(line: &[u8], arena: &mut [u8], out: &mut Output<W>) {
    let mut set = [0u8; 1024];
    if !read_set(word(line, 1), &mut set) {
        return bad_line(out);
    }
    let erased = prim_graph::erase(arena, &set);
    put_answer(out, erased);
}

// Reads a digit for each node, and answers whether there are digits only, and not more than the set
// has bytes.
fn read_set(digits: &[u8], set: &mut [u8]) -> bool {
    if set.len() < digits.len() {
        return false;
    }
    for (digit, place) in digits.iter().zip(set) {
        if !digit.is_ascii_digit() {
            return false;
        }
        *place = *digit - b'0';
    }
    true
}
