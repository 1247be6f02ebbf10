// The line `chains`: each node's child list (document 01: chain).
use calls_text::{Output, put_refusal};
use std::io::Write;

// `chains`: each node's children in their order, joined by `,`, the nodes joined by `;`.
pub(crate) fn chains_line<W: Write>(arena: &[u8], out: &mut Output<W>) {
    let read = prim_graph::count(arena);
    match read {
        Ok(count) => put_lists(arena, count, out),
        Err(refusal) => put_refusal(out, refusal),
    }
}

// Every node is asked once for its two links, since every call checks the arena.
fn put_lists<W: Write>(arena: &[u8], count: u32, out: &mut Output<W>) {
    let mut first = [0usize; 1024];
    let mut next = [0usize; 1024];
    read_links(arena, count, &mut first, &mut next);
    put_each(&first, &next, count as usize, out);
}

// Puts the first child and the next sibling of each node below `count` into its place.
fn read_links(arena: &[u8], count: u32, first: &mut [usize], next: &mut [usize]) {
    for (n, (first, next)) in (0..count).zip(first.iter_mut().zip(next)) {
        if let Ok(node) = prim_graph::node(arena, n) {
            *first = node.first_child.0 as usize;
            *next = node.next_sibling.0 as usize;
        }
    }
}

// The lists of the first `count` nodes.
fn put_each<W: Write>(first: &[usize], next: &[usize], count: usize, out: &mut Output<W>) {
    for (n, child) in first.iter().take(count).enumerate() {
        out.put_between(n, b";");
        put_list(*child, next, out);
    }
}

// The list that starts with `first`. A number that is no place of `next` is no node and ends it; a
// list has no more nodes than `next` places.
fn put_list<W: Write>(first: usize, next: &[usize], out: &mut Output<W>) {
    let mut child = first;
    for before in 0..next.len() {
        if next.len() <= child {
            return;
        }
        out.put_between(before, b",");
        out.put_number(child as u64);
        child = next[child];
    }
}
