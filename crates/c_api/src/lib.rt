// The library for viewers in C and Rust: a few calls of crates/prim_graph as C functions on byte
// slices and node numbers. No function has a `requires`: any slices may be lent, any numbers given.
// A slice is passed as a pointer and a length (viewer/include/cadgweri.h).
// One number carries a call's refusal and its value (carried.rt).
#![tactic(auto)]

mod carried;

ghost use Rattle.std.specs.Prelude.{◌≡◌, [], get_or};
ghost use Rattle.model.specs.Answers.{ordering_number};
ghost use Rattle.model.specs.Arena.{count_in, decode};
ghost use Rattle.model.specs.ArenaCalls.{on_arena, into_arena, ask_arena};
ghost use Rattle.model.specs.Calls.{finalize_strength_order, read_into, compares_nodes, compares_siblings, reads_entry};
ghost use Rattle.model.specs.Graph.{empty_graph};
ghost use Rattle.model.specs.Strength.{view_of, compare_node_strength, compare_sibling_node_strength};
ghost use Rattle.c_api.specs.Carried.{carried_answer, WroteCarried};
ghost use Rattle.c_api.specs.CarriedOrders.{OrderCarried};

pub use carried::{Value, carry, carry_refusal};

// Reads a snapshot into the arena, whatever it held. The value is how many nodes it has. Refused 1,
// 12, then 4 to 7; the arena is then as it was.
#[unsafe(no_mangle)]
pub extern "C" fn cadgweri_read_snapshot(arena: &mut [u8], bytes: &[u8]) -> u64
    ensures { WroteCarried (into_arena (read_into bytes.now empty_graph) arena.old)
        arena.old result arena.new }
{
    carry(prim_graph::read_snapshot(arena, bytes))
}

// The value is how many nodes the graph has. Refused 1 or 2.
#[unsafe(no_mangle)]
pub extern "C" fn cadgweri_count(arena: &[u8]) -> u64
    ensures { result ≡ carried_answer (ask_arena arena.now []) (count_in arena.now) }
{
    carry(prim_graph::count(arena))
}

// The value is 0 where node a is the stronger, 2 where b is, 1 where they are one node. Refused 1
// to 4.
#[unsafe(no_mangle)]
pub extern "C" fn cadgweri_compare_node_strength(arena: &[u8], a: u32, b: u32) -> u64
    ensures { result ≡ carried_answer (ask_arena arena.now (compares_nodes (decode arena.now) a b))
        (ordering_number (compare_node_strength (view_of (decode arena.now)) a b)) }
{
    carry(prim_graph::compare_node_strength(arena, a, b))
}

// The same of two siblings: refused 1 to 4, and 8 where they have not one parent.
#[unsafe(no_mangle)]
pub extern "C" fn cadgweri_compare_sibling_node_strength(arena: &[u8], a: u32, b: u32) -> u64
    ensures { result ≡ carried_answer
        (ask_arena arena.now (compares_siblings (decode arena.now) a b))
        (ordering_number (compare_sibling_node_strength (view_of (decode arena.now)) a b)) }
{
    carry(prim_graph::compare_sibling_node_strength(arena, a, b))
}

// Orders the graph: each child list is sorted, and the order is their walk; a finalized graph stays
// as it is. No value. Refused 1 to 3, and 9 where a child list has no order; the arena is then as
// it was.
#[unsafe(no_mangle)]
pub extern "C" fn cadgweri_finalize_strength_order(arena: &mut [u8]) -> u64
    ensures { WroteCarried (on_arena finalize_strength_order arena.old) arena.old result
        arena.new }
{
    carry(prim_graph::finalize_strength_order(arena))
}

// Writes the order to the front of `out`, which has 4,096 bytes: a node's number in 4 bytes each,
// the strongest first. The value is how many nodes it has. Refused 1 to 3, and 10 where the graph
// is not ordered; `out` is then as it was.
#[unsafe(no_mangle)]
pub extern "C" fn cadgweri_strength_order(arena: &[u8], out: &mut [u8]) -> u64
    ensures { OrderCarried arena.now out.old result out.new }
{
    carry(prim_graph::strength_order(arena, out))
}

// The value is the node at a place of the order, from 0 on. Refused 1 to 3, 4 where the place is
// not below the count, and 10.
#[unsafe(no_mangle)]
pub extern "C" fn cadgweri_order_entry(arena: &[u8], place: u32) -> u64
    ensures { result ≡ carried_answer (ask_arena arena.now (reads_entry (decode arena.now) place))
        (get_or (decode arena.now).order place 0) }
{
    carry(prim_graph::order_entry(arena, place))
}
