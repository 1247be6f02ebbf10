// The line `compares`: every node with every node. The arena is checked once, by its count, and
// each pair is compared below the questions.
ghost use Rattle.std.specs.Prelude.{◌≡◌};
ghost use Rattle.model.specs.Arena.{count_in};
ghost use Rattle.model.specs.ArenaCalls.{ValidArena};
ghost use Rattle.view.specs.View.{ValidNodeAndRoot};

use calls_text::{Output, put_refusal};
use model::Refusal;
use std::cmp::Ordering;
use std::io::Write;

// `compares`: a word for each node, a letter in it for each node.
pub(crate) fn compares_line<W: Write>(arena: &[u8], out: &mut Output<W>) {
    let read = prim_graph::count(arena);
    match read {
        Ok(count) => put_rows(arena, count, out),
        Err(refusal) => put_refusal(out, refusal),
    }
}

// The words of all nodes. An empty graph is refused 3.
fn put_rows<W: Write>(arena: &[u8], count: u32, out: &mut Output<W>)
    requires { ValidArena arena.now × (count ≡ count_in arena.now) }
{
    if count == 0 {
        return put_refusal(out, Refusal::NodeZero);
    }
    let root = arena::local_root(arena);
    for a in 0..count {
        put_word(arena, root, count, a, out);
    }
}

// The word of node a, behind a space unless it is the first.
fn put_word<W: Write>(arena: &[u8], root: u32, count: u32, a: u32, out: &mut Output<W>)
    requires { ValidNodeAndRoot arena.now root a × (count ≡ count_in arena.now) }
{
    out.put_between(a as usize, b" ");
    put_row(arena, root, count, a, out);
}

// The strength of node a beside each node.
fn put_row<W: Write>(arena: &[u8], root: u32, count: u32, a: u32, out: &mut Output<W>)
    requires { ValidNodeAndRoot arena.now root a × (count ≡ count_in arena.now) }
{
    for b in 0..count {
        put_letter(strength::compare_node_strength(arena, root, a, b), out);
    }
}

fn put_letter<W: Write>(order: Ordering, out: &mut Output<W>) {
    match order {
        Ordering::Less => out.put(b"L"),
        Ordering::Equal => out.put(b"E"),
        Ordering::Greater => out.put(b"G"),
    }
}
