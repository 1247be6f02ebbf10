// The lines that order a graph, cull, erase and append a child's name.
use calls_text::{Output, is_call, put_answer, word};
use std::io::Write;

// The answer to a line that changes a graph in place, or reads what such a line made.
pub fn answer<W: Write>(line: &[u8], arena: &mut [u8], out: &mut Output<W>) -> bool {
    if is_call(line, b"order", 1) {
        order_line(arena, out);
    } else if is_call(line, b"cull", 1) {
        cull_line(arena, out);
    } else if is_call(line, b"deepen", 2) {
        deepen_line(line, arena, out);
    } else if is_call(line, b"list", 1) {
        crate::orders::list_line(arena, out);
    } else if is_call(line, b"erasable", 1) {
        crate::erasures::erasable_line(arena, out);
    } else if is_call(line, b"erase", 2) {
        crate::erasures::erase_line(line, arena, out);
    } else {
        return crate::setting::answer(line, arena, out);
    }
    true
}

// `order`: every child list sorted.
fn order_line<W: Write>(arena: &mut [u8], out: &mut Output<W>) {
    let ordered = prim_graph::finalize_strength_order(arena);
    put_answer(out, ordered);
}

// `cull`: what contributes nothing marked.
fn cull_line<W: Write>(arena: &mut [u8], out: &mut Output<W>) {
    let culled = prim_graph::cull_subtrees_without_opinions(arena);
    put_answer(out, culled);
}

// `deepen PATH`: the path's last name appended to every site.
fn deepen_line<W: Write>(line: &[u8], arena: &mut [u8], out: &mut Output<W>) {
    let deepened = prim_graph::append_child_name_to_all_sites(arena, word(line, 1));
    put_answer(out, deepened);
}
