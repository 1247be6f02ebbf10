// The line `dump`: each node's record.
use arena::Node;
use calls_text::{Output, put_path, put_refusal};
use std::io::Write;

// `dump`: `arc,flags,stack,layer,parent,origin,depth,sibling,restriction,specfrom,hasspecs,path` of
// each node, joined by `;`.
pub(crate) fn dump_line<W: Write>(arena: &[u8], out: &mut Output<W>) {
    let read = prim_graph::count(arena);
    match read {
        Ok(count) => put_nodes(arena, count, out),
        Err(refusal) => put_refusal(out, refusal),
    }
}

fn put_nodes<W: Write>(arena: &[u8], count: u32, out: &mut Output<W>) {
    for n in 0..count {
        out.put_between(n as usize, b";");
        put_node(arena, n, out);
    }
}

fn put_node<W: Write>(arena: &[u8], n: u32, out: &mut Output<W>) {
    let read = prim_graph::node(arena, n);
    match read {
        Ok(node) => {
            put_record(node, out);
            put_node_path(arena, n, out);
        }
        Err(refusal) => put_refusal(out, refusal),
    }
}

fn put_node_path<W: Write>(arena: &[u8], n: u32, out: &mut Output<W>) {
    let mut path = [0u8; 255];
    let read = prim_graph::path(arena, n, &mut path);
    put_path(out, read, &path);
}

// The record's numbers, each with a comma.
fn put_record<W: Write>(node: Node, out: &mut Output<W>) {
    let head = [node.arc as u32, node.flags as u32, node.stack, node.layer];
    put_numbers(&head, out);
    put_link(node.parent.0, out);
    put_link(node.origin.0, out);
    let rest = [
        node.depth as u32,
        node.sibling as u32,
        node.restriction as u32,
        node.spec_from as u32,
        node.has_specs as u32,
    ];
    put_numbers(&rest, out);
}

// Each number and a comma.
fn put_numbers<W: Write>(numbers: &[u32], out: &mut Output<W>) {
    for number in numbers {
        put_field(*number, out);
    }
}

// The number and a comma.
fn put_field<W: Write>(number: u32, out: &mut Output<W>) {
    out.put_number(number as u64);
    out.put(b",");
}

// The node's number, or `-` for none, and a comma.
fn put_link<W: Write>(number: u32, out: &mut Output<W>) {
    if number == arena::NO_NODE {
        return out.put(b"-,");
    }
    put_field(number, out);
}
