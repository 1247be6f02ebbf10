// The lines that look at a graph.
use crate::relations::node_line;
use calls_text::{
    Output, bad_line, front, is_call, put_answer, put_bytes, put_path, put_refusal, read_number,
    word,
};
use model::Refusal;
use prim_graph::{depth_below_introduction, intro_path, is_due_to_ancestor, path_at_introduction};
use std::io::Write;

// The answer to a line that looks at a graph. `below N`: the node's depth below its introduction;
// `due N`: whether it was introduced above this prim; `intro N`: its path at its introduction;
// `introduced N`: the path of the site that introduced it.
pub fn answer<W: Write>(line: &[u8], arena: &[u8], out: &mut Output<W>) -> bool {
    if is_call(line, b"write", 1) {
        write_line(arena, out);
    } else if is_call(line, b"marks", 1) {
        marks_line(arena, out);
    } else if is_call(line, b"dump", 1) {
        crate::records::dump_line(arena, out);
    } else if is_call(line, b"chains", 1) {
        crate::children::chains_line(arena, out);
    } else if is_call(line, b"using", 3) {
        using_line(line, arena, out);
    } else if is_call(line, b"below", 2) {
        node_line(line, arena, depth_below_introduction, out);
    } else if is_call(line, b"due", 2) {
        node_line(line, arena, is_due_to_ancestor, out);
    } else if is_call(line, b"intro", 2) {
        path_line(line, arena, path_at_introduction, out);
    } else if is_call(line, b"introduced", 2) {
        path_line(line, arena, intro_path, out);
    } else {
        return false;
    }
    true
}

// `write`: the snapshot.
fn write_line<W: Write>(arena: &[u8], out: &mut Output<W>) {
    let mut snapshot = io::large_buffer();
    let written = prim_graph::write_snapshot(arena, &mut snapshot);
    match written {
        Ok(length) => put_bytes(out, front(&snapshot, length as usize)),
        Err(refusal) => put_refusal(out, refusal),
    }
}

// `marks`: ordered, finalized, shallow.
fn marks_line<W: Write>(arena: &[u8], out: &mut Output<W>) {
    let read = prim_graph::graph_info(arena);
    match read {
        Ok(graph) => put_marks(graph.ordered, graph.finalized, graph.shallow, out),
        Err(refusal) => put_refusal(out, refusal),
    }
}

fn put_marks<W: Write>(ordered: bool, finalized: bool, shallow: bool, out: &mut Output<W>) {
    let marks = [
        b'0' + ordered as u8,
        b' ',
        b'0' + finalized as u8,
        b' ',
        b'0' + shallow as u8,
    ];
    out.put(&marks);
}

// `using STACK PATH`: the node that uses the site, or `-`.
fn using_line<W: Write>(line: &[u8], arena: &[u8], out: &mut Output<W>) {
    let Some(stack) = read_number(word(line, 1)) else {
        return bad_line(out);
    };
    let found = prim_graph::node_using_site(arena, stack, word(line, 2));
    put_answer(out, found);
}

// A line `NAME N` that asks for a path of a node.
fn path_line<W: Write, F: Fn(&[u8], u32, &mut [u8]) -> Result<u32, Refusal>>(
    line: &[u8],
    arena: &[u8],
    find: F,
    out: &mut Output<W>,
)
    requires { F.IsAlwaysCallable find }
{
    let Some(n) = read_number(word(line, 1)) else {
        return bad_line(out);
    };
    let mut path = [0u8; 255];
    let found = find(arena, n, &mut path);
    put_path(out, found, &path);
}
