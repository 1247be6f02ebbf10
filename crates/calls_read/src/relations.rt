// The lines on what the comparison asks of nodes. They are lines of our own: document 01 has no
// sentence for these calls of the Rust.
use crate::compare::pair_line;
use calls_text::{Answer, Output, bad_line, is_call, put_answer, put_refusal, read_number, word};
use model::Refusal;
use prim_graph::{
    get_propagated_specializes_node, is_ancestor_of, is_propagated_specializes, same_site,
};
use std::io::Write;

// The answer to such a line. `ancestor X Y`: whether X is an ancestor of Y below the local root;
// `site A B`: whether two nodes have one site; `propagated N`: whether the node is a propagated
// specializes; `copy N`: its copy under the local root, or `-`.
pub(crate) fn answer<W: Write>(line: &[u8], arena: &[u8], out: &mut Output<W>) -> bool {
    if is_call(line, b"ancestor", 3) {
        pair_line(line, arena, is_ancestor_of, out);
    } else if is_call(line, b"site", 3) {
        pair_line(line, arena, same_site, out);
    } else if is_call(line, b"propagated", 2) {
        node_line(line, arena, is_propagated_specializes, out);
    } else if is_call(line, b"copy", 2) {
        node_line(line, arena, get_propagated_specializes_node, out);
    } else if is_call(line, b"class", 2) {
        class_line(line, arena, out);
    } else {
        return false;
    }
    true
}

// A line `NAME N` that makes one call on a node.
pub(crate) fn node_line<T: Answer, W: Write, F: Fn(&[u8], u32) -> Result<T, Refusal>>(
    line: &[u8],
    arena: &[u8],
    call: F,
    out: &mut Output<W>,
)
    requires { F.IsAlwaysCallable call }
{
    match read_number(word(line, 1)) {
        Some(n) => put_answer(out, call(arena, n)),
        None => bad_line(out),
    }
}

// `class N`: where the class hierarchy of the node starts, and its topmost class, or `-`.
fn class_line<W: Write>(line: &[u8], arena: &[u8], out: &mut Output<W>) {
    let Some(n) = read_number(word(line, 1)) else {
        return bad_line(out);
    };
    let found = prim_graph::starting_node_of_class_hierarchy(arena, n);
    match found {
        Ok(hierarchy) => {
            out.put_number(hierarchy.instance.0 as u64);
            out.put(b" ");
            hierarchy.class_node.put(out);
        }
        Err(refusal) => put_refusal(out, refusal),
    }
}
