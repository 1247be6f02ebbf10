// The lines that compare nodes, or put the questions that the comparison puts.
use calls_text::{Answer, Output, bad_line, is_call, put_answer, read_number, word};
use model::Refusal;
use prim_graph::{compare_node_strength, compare_sibling_node_strength};
use std::io::Write;

// The answer to a line that compares nodes. `compare A B` and `sibling A B`: the strength of two
// nodes, or of two siblings.
pub fn answer<W: Write>(line: &[u8], arena: &[u8], out: &mut Output<W>) -> bool {
    if is_call(line, b"compare", 3) {
        pair_line(line, arena, compare_node_strength, out);
    } else if is_call(line, b"sibling", 3) {
        pair_line(line, arena, compare_sibling_node_strength, out);
    } else if is_call(line, b"compares", 1) {
        crate::rows::compares_line(arena, out);
    } else {
        return crate::relations::answer(line, arena, out);
    }
    true
}

// The two nodes of a line: none where a word is no number.
fn read_pair(line: &[u8]) -> Option<(u32, u32)> {
    Some((read_number(word(line, 1))?, read_number(word(line, 2))?))
}

// A line `NAME A B` that makes one call on two nodes.
pub(crate) fn pair_line<T: Answer, W: Write, F: Fn(&[u8], u32, u32) -> Result<T, Refusal>>(
    line: &[u8],
    arena: &[u8],
    call: F,
    out: &mut Output<W>,
)
    requires { F.IsAlwaysCallable call }
{
    match read_pair(line) {
        Some((a, b)) => put_answer(out, call(arena, a, b)),
        None => bad_line(out),
    }
}
