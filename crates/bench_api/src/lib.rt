// C functions for the programs in bench/, and not open to others: each is one call of the library
// below it, with its answer as a number, which carries refusal and value where the call may be
// refused (crates/c_api). Those on many pairs put their questions to all pairs first; they do not
// put question 3, and refuse node 0 with itself by 8, which the calls of crates/prim_graph do not.
#![tactic(auto)]

mod reading;
mod setting;
mod sums;

ghost use Rattle.std.specs.Prelude.{◌≡◌, true, false};
ghost use Rattle.model.specs.Answers.{ordering_number};
ghost use Rattle.model.specs.Arena.{decode};
ghost use Rattle.model.specs.ArenaCalls.{on_arena, into_arena, ask_arena};
ghost use Rattle.model.specs.Calls.{init_root, add_child, read_into, compares_nodes, finalize_strength_order, cull};
ghost use Rattle.model.specs.Calls.{append_child_name};
ghost use Rattle.model.specs.Graph.{empty_graph};
ghost use Rattle.model.specs.Path.{count_prims};
ghost use Rattle.model.specs.Strength.{view_of, compare_node_strength};
ghost use Rattle.c_api.specs.Carried.{carried_answer, WroteCarried};
ghost use Rattle.deepening.specs.ChildNames.{seed_from};
ghost use Rattle.erasing.specs.Erasures.{erase_in};
ghost use Rattle.bench_api.specs.Numbers.{count_number, graph_number, order_number, reference_desc, SnapshotCarried};
ghost use Rattle.bench_api.specs.Numbers.{ErasableCarried};
ghost use Rattle.bench_api.specs.Pairs.{asked_number, pairs_number};

use model::NodeId;
use prim_graph::NodeDesc;

// The prim count, or 65,536 where the bytes are no path.
#[unsafe(no_mangle)]
pub extern "C" fn bench_prim_count(path: &[u8]) -> u32
    ensures { result ≡ count_number (count_prims path.now) }
{
    let count = path::prim_count(path);
    match count {
        Some(names) => names as u32,
        None => 65536,
    }
}

// 1 where the bytes are an arena that holds a graph, else 0.
#[unsafe(no_mangle)]
pub extern "C" fn bench_is_graph(arena: &[u8]) -> u32
    ensures { result ≡ graph_number arena.now }
{
    (arena.len() == arena::ARENA_BYTES && validate::is_graph(arena)) as u32
}

// 1 where the bytes are an arena that holds a graph, and this has an order, else 0. It is decided
// by all pairs of siblings: ordering comes to that only where nothing quicker shows the order.
#[unsafe(no_mangle)]
pub extern "C" fn bench_has_order(arena: &[u8]) -> u32
    ensures { result ≡ order_number arena.now }
{
    if arena.len() != arena::ARENA_BYTES || !validate::is_graph(arena) {
        return 0;
    }
    let mut sorted: [u32; 1024] = [0; 1024];
    let mut ends: [u32; 1024] = [0; 1024];
    let root = arena::local_root(arena);
    let count = arena::count(arena);
    sorting::decide(arena, root, count, &mut sorted, &mut ends) as u32
}

// `init_root`.
#[unsafe(no_mangle)]
pub extern "C" fn bench_init_root(arena: &mut [u8], stack: u32, layer: u32, path: &[u8]) -> u64
    ensures { WroteCarried (on_arena (init_root stack layer path.now) arena.old)
        arena.old result arena.new }
{
    c_api::carry(prim_graph::init_root(arena, stack, layer, path))
}

// `add_child` of a Reference whose origin and depth are missing, other fields 0.
#[unsafe(no_mangle)]
pub extern "C" fn bench_add_child(arena: &mut [u8], parent: u32, path: &[u8]) -> u64
    ensures { WroteCarried (on_arena (add_child (reference_desc parent path.now)) arena.old)
        arena.old result arena.new }
{
    let desc = NodeDesc {
        arc: 4,
        flags: 0,
        stack: 0,
        layer: 0,
        parent: Some(NodeId(parent)),
        origin: None,
        depth: None,
        sibling: 0,
        restriction: 0,
        spec_from: 0,
        has_specs: 0,
    };
    c_api::carry(prim_graph::add_child(arena, desc, path))
}

// `read_snapshot`.
#[unsafe(no_mangle)]
pub extern "C" fn bench_read_snapshot(arena: &mut [u8], bytes: &[u8]) -> u64
    ensures { WroteCarried (into_arena (read_into bytes.now empty_graph) arena.old)
        arena.old result arena.new }
{
    c_api::carry(prim_graph::read_snapshot(arena, bytes))
}

// `write_snapshot`.
#[unsafe(no_mangle)]
pub extern "C" fn bench_write_snapshot(arena: &[u8], out: &mut [u8]) -> u64
    ensures { SnapshotCarried arena.now out.old result out.new }
{
    c_api::carry(prim_graph::write_snapshot(arena, out))
}

// `compare_node_strength`.
#[unsafe(no_mangle)]
pub extern "C" fn bench_compare_node_strength(arena: &[u8], a: u32, b: u32) -> u64
    ensures { result ≡ carried_answer (ask_arena arena.now (compares_nodes (decode arena.now) a b))
        (ordering_number (compare_node_strength (view_of (decode arena.now)) a b)) }
{
    c_api::carry(prim_graph::compare_node_strength(arena, a, b))
}

// The sum of `compare_node_strength` over pairs of node numbers, eight bytes a pair: Less 0, Equal
// 1, Greater 2.
#[unsafe(no_mangle)]
pub extern "C" fn bench_compare_pairs(arena: &[u8], pairs: &[u8]) -> u64
    ensures { result ≡ pairs_number false arena.now pairs.now }
{
    sums::compare_pairs(arena, pairs, false)
}

// The same of `compare_sibling_node_strength`.
#[unsafe(no_mangle)]
pub extern "C" fn bench_compare_sibling_pairs(arena: &[u8], pairs: &[u8]) -> u64
    ensures { result ≡ pairs_number true arena.now pairs.now }
{
    sums::compare_pairs(arena, pairs, true)
}

// What both put before they compare, and nothing more: the refusal, and no value.
#[unsafe(no_mangle)]
pub extern "C" fn bench_ask_pairs(arena: &[u8], pairs: &[u8], siblings: bool) -> u64
    ensures { result ≡ asked_number siblings arena.now pairs.now }
{
    sums::only_ask(arena, pairs, siblings)
}

// `finalize_strength_order`.
#[unsafe(no_mangle)]
pub extern "C" fn bench_finalize_strength_order(arena: &mut [u8]) -> u64
    ensures { WroteCarried (on_arena finalize_strength_order arena.old) arena.old result
        arena.new }
{
    c_api::carry(prim_graph::finalize_strength_order(arena))
}

// `cull_subtrees_without_opinions`.
#[unsafe(no_mangle)]
pub extern "C" fn bench_cull(arena: &mut [u8]) -> u64
    ensures { WroteCarried (on_arena cull arena.old) arena.old result arena.new }
{
    c_api::carry(prim_graph::cull_subtrees_without_opinions(arena))
}

// `erasable`.
#[unsafe(no_mangle)]
pub extern "C" fn bench_erasable(arena: &[u8], set: &mut [u8]) -> u64
    ensures { ErasableCarried arena.now set.old result set.new }
{
    c_api::carry(prim_graph::erasable(arena, set))
}

// `erase`.
#[unsafe(no_mangle)]
pub extern "C" fn bench_erase(arena: &mut [u8], set: &[u8]) -> u64
    ensures { WroteCarried (erase_in set.now arena.old) arena.old result
        arena.new }
{
    c_api::carry(prim_graph::erase(arena, set))
}

// `append_child_name_to_all_sites`.
#[unsafe(no_mangle)]
pub extern "C" fn bench_append_child_name_to_all_sites(arena: &mut [u8], child: &[u8]) -> u64
    ensures { WroteCarried (on_arena (append_child_name child.now) arena.old)
        arena.old result arena.new }
{
    c_api::carry(prim_graph::append_child_name_to_all_sites(arena, child))
}

// `seed_child`.
#[unsafe(no_mangle)]
pub extern "C" fn bench_seed_child(from: &[u8], into: &mut [u8], child: &[u8]) -> u64
    ensures { WroteCarried (into_arena (seed_from child.now from.now) into.old)
        into.old result into.new }
{
    c_api::carry(prim_graph::seed_child(from, into, child))
}
