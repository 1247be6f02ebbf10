// The questions that calls put first: the size of the buffer and whether it holds a graph; whether
// it has a node; whether one node, or two, can be read; and whether two nodes have one parent. No
// public function has a `requires`: each puts its questions in document 01's order and is refused
// by the first whose answer is no. Nothing is written.
// The questions are in model/specs/Calls.antt and ArenaCalls.antt.
ghost use Rattle.std.specs.Prelude.{◌≡◌, ◌||◌, [], ◌∷◌, eqb, ltb};
ghost use Rattle.model.specs.Answers.{answer_refusal};
ghost use Rattle.model.specs.Arena.{count_in, decode};
ghost use Rattle.model.specs.ArenaCalls.{ValidArena, ValidNode, ask_arena, Answered};
ghost use Rattle.model.specs.Calls.{has_node_zero, reads_node, compares_nodes, compares_siblings};
ghost use Rattle.model.specs.Graph.{node_at};
ghost use Rattle.model.specs.Refusals.{ask, refusal};

use model::Refusal;

// Questions 1 and 2: whether the arena holds a graph.
pub fn ask_graph(arena: &[u8]) -> Result<(), Refusal>
    ensures { answer_refusal result ≡ refusal (ask_arena arena.now []) }
{
    if arena.len() != arena::ARENA_BYTES {
        return Err(Refusal::Size);
    }
    if !crate::graph::is_graph(arena) {
        return Err(Refusal::NotAGraph);
    }
    Ok(())
}

// How many nodes the graph has: none in an empty one. Refused 1 or 2.
pub fn count(arena: &[u8]) -> Result<u32, Refusal>
    ensures { Answered (ask_arena arena.now []) (count_in arena.now) result }
{
    ask_graph(arena)?;
    Ok(arena::count(arena))
}

// Questions 1 to 3: whether the graph has a node.
pub fn ask_node_zero(arena: &[u8]) -> Result<(), Refusal>
    ensures { answer_refusal result
        ≡ refusal (ask_arena arena.now (has_node_zero (decode arena.now) ∷ [])) }
{
    ask_graph(arena)?;
    if arena::count(arena) == 0 {
        return Err(Refusal::NodeZero);
    }
    Ok(())
}

// Question 4 of node n, of an arena that holds a graph.
fn ask_number(arena: &[u8], n: u32) -> Result<(), Refusal>
    requires { ValidArena arena.now }
    ensures { answer_refusal result ≡ refusal (ask 4 (ltb n (count_in arena.now)) ∷ []) }
{
    if n >= arena::count(arena) {
        return Err(Refusal::Node);
    }
    Ok(())
}

// Questions 1 to 4: whether node n can be read.
pub fn ask_node(arena: &[u8], n: u32) -> Result<(), Refusal>
    ensures { answer_refusal result
        ≡ refusal (ask_arena arena.now (reads_node (decode arena.now) n)) }
{
    ask_node_zero(arena)?;
    ask_number(arena, n)
}

// Questions 1 to 4 of two nodes. The arena is checked once.
pub fn ask_nodes(arena: &[u8], a: u32, b: u32) -> Result<(), Refusal>
    ensures { answer_refusal result
        ≡ refusal (ask_arena arena.now (compares_nodes (decode arena.now) a b)) }
{
    ask_node(arena, a)?;
    ask_number(arena, b)
}

// Question 8: one parent. A node with itself passes.
fn ask_parents(arena: &[u8], a: u32, b: u32) -> Result<(), Refusal>
    requires { ValidNode arena.now a × ValidNode arena.now b }
    ensures { answer_refusal result ≡ refusal (ask 8 (eqb a b
        || eqb (node_at (decode arena.now).nodes a).parent
        (node_at (decode arena.now).nodes b).parent) ∷ []) }
{
    if a == b {
        return Ok(());
    }
    if view::parent(arena, a) != view::parent(arena, b) {
        return Err(Refusal::NotSiblings);
    }
    Ok(())
}

// Questions 1 to 4 of two nodes, and 8.
pub fn ask_siblings(arena: &[u8], a: u32, b: u32) -> Result<(), Refusal>
    ensures { answer_refusal result
        ≡ refusal (ask_arena arena.now (compares_siblings (decode arena.now) a b)) }
{
    ask_nodes(arena, a, b)?;
    ask_parents(arena, a, b)
}
