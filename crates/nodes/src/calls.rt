// The calls that start a graph and add to it, that read the header or one node, and that look for a
// site. None has a `requires`: each puts its questions in document 01's order and is refused by the
// first whose answer is no; then no byte has changed, because nothing is written before all have
// passed.
// The calls and their questions are in model/specs/Calls.antt, on an arena as
// model/specs/ArenaCalls.antt has it; specs/Adding.antt has node 0's record, specs/Queries.antt
// says what the reading calls answer.
ghost use Rattle.std.specs.Prelude.{◌≡◌, ◌≤◌, cond, not, ◌||◌, eqb};
ghost use Rattle.model.specs.Answers.{node_option};
ghost use Rattle.model.specs.ArenaCalls.{on_arena, Wrote, ask_arena, Answered, AnsweredNode, AnsweredTest};
ghost use Rattle.model.specs.ArenaCalls.{ValidArena, ValidNode};
ghost use Rattle.model.specs.Calls.{init_root, add_child, reads_node};
ghost use Rattle.nodes.specs.Describing.{desc_of};
ghost use Rattle.nodes.specs.Adding.{start_record};
ghost use Rattle.model.specs.Arena.{decode, count_in, local_root_in, node_in};
ghost use Rattle.model.specs.Graph.{depth_below_introduction, is_due_to_ancestor, uses_site, node_using_site};
ghost use Rattle.nodes.specs.Queries.{NodeAnswered, GraphShown, GraphAnswered};
ghost use Rattle.std.specs.Prelude.{None, Some};
ghost use Rattle.model.specs.Node.{has_flag, inert_flag, culled_flag};
ghost use Rattle.model.specs.Calls as calls;

use crate::description::NodeDesc;
use model::{NodeId, Refusal};

// The record of node 0: arc Root, INERT, with specs, its depth its own prim count.
fn start_record(stack: u32, layer: u32, prims: u16, path_length: usize) -> arena::Node
    requires { (prims ≤ 255) × (path_length ≤ 255) }
    ensures { result ≡ start_record stack layer prims path_length }
{
    arena::Node {
        first_child: NodeId::INVALID,
        last_child: NodeId::INVALID,
        next_sibling: NodeId::INVALID,
        prim_count: prims as u8,
        record_length: (arena::offsets::PATH + path_length) as u16,
        arc: arena::arcs::ROOT,
        flags: arena::INERT,
        stack: stack,
        layer: layer,
        parent: NodeId::INVALID,
        origin: NodeId::INVALID,
        depth: prims,
        sibling: 0,
        restriction: 0,
        spec_from: 0,
        has_specs: 1,
    }
}

// Starts a graph in an arena that holds the empty one, and answers its number, 0. Refused 1, 2, 3
// where there is a node 0, 5.
pub fn init_root(arena: &mut [u8], stack: u32, layer: u32, path: &[u8]) -> Result<u32, Refusal>
    ensures { Wrote (on_arena (init_root stack layer path.now) arena.old)
        arena.old result arena.new }
{
    validate::ask_graph(arena)?;
    if arena::count(arena) != 0 {
        return Err(Refusal::NodeZero);
    }
    let read = path::prim_count(path);
    let Some(prims) = read else {
        return Err(Refusal::Path);
    };
    child_lists::append_node(
        arena,
        0,
        start_record(stack, layer, prims, path.len()),
        path,
    );
    Ok(0)
}

// Adds the node as the last child of its parent and answers its number. Refused 1 to 7.
pub fn add_child(arena: &mut [u8], desc: NodeDesc, path: &[u8]) -> Result<u32, Refusal>
    ensures { Wrote (on_arena (add_child (desc_of desc path.now)) arena.old)
        arena.old result arena.new }
{
    validate::ask_node_zero(arena)?;
    let count = arena::count(arena);
    let prims = crate::description::check_desc(arena, count, desc, path)?;
    let node = crate::description::added_record(arena, desc, prims, path.len());
    child_lists::append_node(arena, count, node, path);
    Ok(count)
}

// The record of node n, with its links. Refused 1 to 4.
pub fn node(arena: &[u8], n: u32) -> Result<arena::Node, Refusal>
    ensures { NodeAnswered arena.now n result }
{
    validate::ask_node(arena, n)?;
    Ok(arena::load_node(arena, n))
}

// The parent's prim count less the node's depth, at least 0. Refused 1 to 4.
pub fn depth_below_introduction(arena: &[u8], n: u32) -> Result<u32, Refusal>
    ensures { Answered (ask_arena arena.now (reads_node (decode arena.now) n))
        (depth_below_introduction (decode arena.now).nodes n) result }
{
    validate::ask_node(arena, n)?;
    Ok(view::depth_below(arena, n) as u32)
}

// Whether node n was introduced above this prim: that depth is not 0. Refused 1 to 4.
pub fn is_due_to_ancestor(arena: &[u8], n: u32) -> Result<bool, Refusal>
    ensures { AnsweredTest (ask_arena arena.now (reads_node (decode arena.now) n))
        (is_due_to_ancestor (decode arena.now).nodes n) result }
{
    validate::ask_node(arena, n)?;
    Ok(0 < view::depth_below(arena, n))
}

// What an arena's header tells of its graph.
#[derive(Clone, Copy)]
pub struct GraphInfo {
    pub count: u32,
    pub ordered: bool,
    pub finalized: bool,
    pub shallow: bool,
    pub local_root: Option<NodeId>,
}

// The local root: node 0 is never it, and stands for none in the header.
fn root_or_none(root: u32) -> Option<NodeId>
    ensures { node_option result ≡ cond (eqb root 0) None (Some root) }
{
    if root == 0 {
        return None;
    }
    Some(NodeId(root))
}

// The local root in the header; of an empty graph it is not read.
fn stored_root(arena: &[u8], count: u32) -> u32
    requires { ValidArena arena.now }
    ensures { result ≡ cond (eqb count 0) 0 (local_root_in arena.now) }
{
    if count == 0 {
        return 0;
    }
    arena::local_root(arena)
}

// The header of an arena that holds a graph.
fn read_info(arena: &[u8], count: u32) -> GraphInfo
    requires { ValidArena arena.now × (count ≡ count_in arena.now) }
    ensures { GraphShown (decode arena.now) result }
{
    GraphInfo {
        count: count,
        ordered: arena::ordered(arena) == 1,
        finalized: arena::finalized(arena) == 1,
        shallow: arena::shallow(arena) == 1,
        local_root: root_or_none(stored_root(arena, count)),
    }
}

// What the header tells of the graph. Refused 1 or 2.
pub fn graph_info(arena: &[u8]) -> Result<GraphInfo, Refusal>
    ensures { GraphAnswered arena.now result }
{
    let nodes = validate::count(arena)?;
    Ok(read_info(arena, nodes))
}

// Whether a node with these flags is neither INERT nor CULLED.
fn contributes(flags: u8) -> bool
    ensures { result ≡ not (has_flag inert_flag flags || has_flag culled_flag flags) }
{
    if validate::is_inert(flags) {
        return false;
    }
    !validate::is_culled(flags)
}

// Whether node n, neither INERT nor CULLED, has that stack and path.
fn uses(arena: &[u8], n: u32, stack: u32, path: &[u8]) -> bool
    requires { ValidNode arena.now n }
    ensures { result ≡ uses_site stack path.now (node_in arena.now n) }
{
    if !contributes(arena::flags(arena, n)) {
        return false;
    }
    if arena::stack(arena, n) != stack {
        return false;
    }
    path::same_path(arena::path(arena, n), path)
}

// The lowest of `count` nodes that uses the site, 4,294,967,295 where none does.
fn lowest(arena: &[u8], count: u32, stack: u32, path: &[u8]) -> u32
    requires { ValidArena arena.now × (count ≡ count_in arena.now) }
    ensures { result ≡ node_using_site stack path.now (decode arena.now) }
{
    for n in 0..count {
        if uses(arena, n, stack, path) {
            return n;
        }
    }
    arena::NO_NODE
}

// The lowest node, neither INERT nor CULLED, that has that stack and path. Refused 1, 2, 3 and 5.
pub fn node_using_site(arena: &[u8], stack: u32, path: &[u8]) -> Result<Option<NodeId>, Refusal>
    ensures { AnsweredNode (ask_arena arena.now
        (calls.uses_site (decode arena.now) path.now))
        (node_using_site stack path.now (decode arena.now)) result }
{
    validate::ask_node_zero(arena)?;
    if !path::is_well_formed(path) {
        return Err(Refusal::Path);
    }
    let found = lowest(arena, arena::count(arena), stack, path);
    Ok(NodeId::from_number(found))
}
