// The lines that make graphs.
use calls_text::{Output, bad_line, front, is_call, put_answer, read_bytes, read_number, word};
use std::io::Write;

// The answer to a line that makes a graph.
pub fn answer<W: Write>(line: &[u8], arena: &mut [u8], out: &mut Output<W>) -> bool {
    if is_call(line, b"add", 13) {
        add_line(line, arena, out);
    } else if is_call(line, b"init", 4) {
        init_line(line, arena, out);
    } else if is_call(line, b"read", 2) {
        read_line(line, arena, out);
    } else {
        return false;
    }
    true
}

// `init STACK LAYER PATH`: node 0.
fn init_line<W: Write>(line: &[u8], arena: &mut [u8], out: &mut Output<W>) {
    let first = read_number(word(line, 1));
    let second = read_number(word(line, 2));
    let Some(stack) = first else {
        return bad_line(out);
    };
    let Some(layer) = second else {
        return bad_line(out);
    };
    let answer = prim_graph::init_root(arena, stack, layer, word(line, 3));
    put_answer(out, answer);
}

// `add PARENT ARC FLAGS STACK LAYER ORIGIN DEPTH SIBLING RESTRICTION SPECFROM HASSPECS PATH`: the
// new node's number.
fn add_line<W: Write>(line: &[u8], arena: &mut [u8], out: &mut Output<W>) {
    let Some((desc, path)) = crate::fields::read(line) else {
        return bad_line(out);
    };
    let answer = prim_graph::add_child(arena, desc, path);
    put_answer(out, answer);
}

// `read HEX`: the count of the snapshot's nodes.
fn read_line<W: Write>(line: &[u8], arena: &mut [u8], out: &mut Output<W>) {
    let mut snapshot = io::large_buffer();
    let Some(length) = read_bytes(word(line, 1), &mut snapshot) else {
        return bad_line(out);
    };
    let answer = prim_graph::read_snapshot(arena, front(&snapshot, length));
    put_answer(out, answer);
}
