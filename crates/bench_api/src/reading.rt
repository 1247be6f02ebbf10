// The calls that only read, beside the comparisons. A number carries the refusal and the answer; of
// an answer that is more than a number it carries the part that is said there, and of a path its
// length alone.
ghost use Rattle.std.specs.Prelude.{◌≡◌, [], length};
ghost use Rattle.model.specs.Answers.{node_number};
ghost use Rattle.model.specs.Arena.{first_of, decode};
ghost use Rattle.model.specs.ArenaCalls.{ask_arena};
ghost use Rattle.model.specs.Calls.{reads_node, compares_nodes, uses_site};
ghost use Rattle.model.specs.Graph.{node_at, children_of, node_using_site, depth_below_introduction, is_due_to_ancestor};
ghost use Rattle.model.specs.Graph.{path_at_introduction, intro_path};
ghost use Rattle.model.specs.Hierarchy.{is_ancestor_of, get_propagated_specializes_node, topmost_class_node};
ghost use Rattle.model.specs.Lists.{bit};
ghost use Rattle.model.specs.Strength.{view, is_propagated_specializes};
ghost use Rattle.c_api.specs.Carried.{carried_answer};
ghost use Rattle.nodes.specs.Queries.{local_root_option};

use model::NodeId;

// `graph_info`: the local root, 4,294,967,295 for none.
#[unsafe(no_mangle)]
pub extern "C" fn bench_graph_info(arena: &[u8]) -> u64
    ensures { result ≡ carried_answer (ask_arena arena.now [])
        (node_number (local_root_option (decode arena.now))) }
{
    let read = prim_graph::graph_info(arena);
    match read {
        Ok(info) => NodeId::number_of(info.local_root) as u64,
        Err(refusal) => c_api::carry_refusal(refusal),
    }
}

// `node`: its first child, 4,294,967,295 for none.
#[unsafe(no_mangle)]
pub extern "C" fn bench_node(arena: &[u8], n: u32) -> u64
    ensures { result ≡ carried_answer (ask_arena arena.now (reads_node (decode arena.now) n))
        (first_of (children_of (decode arena.now) n)) }
{
    let read = prim_graph::node(arena, n);
    match read {
        Ok(node) => node.first_child.0 as u64,
        Err(refusal) => c_api::carry_refusal(refusal),
    }
}

// `path`: its length.
#[unsafe(no_mangle)]
pub extern "C" fn bench_path(arena: &[u8], n: u32) -> u64
    ensures { result ≡ carried_answer (ask_arena arena.now (reads_node (decode arena.now) n))
        (length (node_at (decode arena.now).nodes n).path) }
{
    let mut path: [u8; 255] = [0; 255];
    c_api::carry(prim_graph::path(arena, n, &mut path))
}

// `path_at_introduction`: its length.
#[unsafe(no_mangle)]
pub extern "C" fn bench_path_at_introduction(arena: &[u8], n: u32) -> u64
    ensures { result ≡ carried_answer (ask_arena arena.now (reads_node (decode arena.now) n))
        (length (path_at_introduction (decode arena.now).nodes n)) }
{
    let mut path: [u8; 255] = [0; 255];
    c_api::carry(prim_graph::path_at_introduction(arena, n, &mut path))
}

// `intro_path`: its length.
#[unsafe(no_mangle)]
pub extern "C" fn bench_intro_path(arena: &[u8], n: u32) -> u64
    ensures { result ≡ carried_answer (ask_arena arena.now (reads_node (decode arena.now) n))
        (length (intro_path (decode arena.now).nodes n)) }
{
    let mut path: [u8; 255] = [0; 255];
    c_api::carry(prim_graph::intro_path(arena, n, &mut path))
}

// `is_due_to_ancestor`: 1 for yes and 0 for no.
#[unsafe(no_mangle)]
pub extern "C" fn bench_is_due_to_ancestor(arena: &[u8], n: u32) -> u64
    ensures { result ≡ carried_answer (ask_arena arena.now (reads_node (decode arena.now) n))
        (bit (is_due_to_ancestor (decode arena.now).nodes n)) }
{
    c_api::carry(prim_graph::is_due_to_ancestor(arena, n))
}

// `depth_below_introduction`.
#[unsafe(no_mangle)]
pub extern "C" fn bench_depth_below_introduction(arena: &[u8], n: u32) -> u64
    ensures { result ≡ carried_answer (ask_arena arena.now (reads_node (decode arena.now) n))
        (depth_below_introduction (decode arena.now).nodes n) }
{
    c_api::carry(prim_graph::depth_below_introduction(arena, n))
}

// `node_using_site`: 4,294,967,295 for none.
#[unsafe(no_mangle)]
pub extern "C" fn bench_node_using_site(arena: &[u8], stack: u32, path: &[u8]) -> u64
    ensures { result ≡ carried_answer
        (ask_arena arena.now (uses_site (decode arena.now) path.now))
        (node_using_site stack path.now (decode arena.now)) }
{
    c_api::carry(prim_graph::node_using_site(arena, stack, path))
}

// `is_ancestor_of`: 1 for yes and 0 for no.
#[unsafe(no_mangle)]
pub extern "C" fn bench_is_ancestor_of(arena: &[u8], x: u32, y: u32) -> u64
    ensures { result ≡ carried_answer (ask_arena arena.now (compares_nodes (decode arena.now) x y))
        (bit (is_ancestor_of (view (decode arena.now).nodes) x y)) }
{
    c_api::carry(prim_graph::is_ancestor_of(arena, x, y))
}

// `same_site`, the same.
#[unsafe(no_mangle)]
pub extern "C" fn bench_same_site(arena: &[u8], a: u32, b: u32) -> u64
    ensures { result ≡ carried_answer (ask_arena arena.now (compares_nodes (decode arena.now) a b))
        (bit ((view (decode arena.now).nodes).same_site a b)) }
{
    c_api::carry(prim_graph::same_site(arena, a, b))
}

// `is_propagated_specializes`, the same.
#[unsafe(no_mangle)]
pub extern "C" fn bench_is_propagated_specializes(arena: &[u8], n: u32) -> u64
    ensures { result ≡ carried_answer (ask_arena arena.now (reads_node (decode arena.now) n))
        (bit (is_propagated_specializes (view (decode arena.now).nodes) n)) }
{
    c_api::carry(prim_graph::is_propagated_specializes(arena, n))
}

// `get_propagated_specializes_node`: 4,294,967,295 for none.
#[unsafe(no_mangle)]
pub extern "C" fn bench_get_propagated_specializes_node(arena: &[u8], n: u32) -> u64
    ensures { result ≡ carried_answer (ask_arena arena.now (reads_node (decode arena.now) n))
        (get_propagated_specializes_node (decode arena.now) n) }
{
    c_api::carry(prim_graph::get_propagated_specializes_node(arena, n))
}

// `starting_node_of_class_hierarchy`: the topmost class, 4,294,967,295 for none.
#[unsafe(no_mangle)]
pub extern "C" fn bench_starting_node_of_class_hierarchy(arena: &[u8], n: u32) -> u64
    ensures { result ≡ carried_answer (ask_arena arena.now (reads_node (decode arena.now) n))
        (topmost_class_node (view (decode arena.now).nodes) n) }
{
    let read = prim_graph::starting_node_of_class_hierarchy(arena, n);
    match read {
        Ok(hierarchy) => NodeId::number_of(hierarchy.class_node) as u64,
        Err(refusal) => c_api::carry_refusal(refusal),
    }
}
