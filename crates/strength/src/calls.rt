// The calls that compare two nodes, or tell where one stands in a class hierarchy. None has a
// `requires`: each puts its questions first (crates/validate) and is refused by the first whose
// answer is no; the local root is then read once. Nothing is written.
// The definitions are in model/specs/Strength.antt and Hierarchy.antt, the questions in
// model/specs/Calls.antt; specs/Comparisons.antt says what is known of two siblings that have
// passed, specs/Hierarchies.antt what a class hierarchy's call answers.
ghost use Rattle.std.specs.Prelude.{◌≡◌};
ghost use Rattle.model.specs.Arena.{decode};
ghost use Rattle.model.specs.ArenaCalls.{ask_arena, AnsweredOrder, AnsweredTest, AnsweredNode};
ghost use Rattle.model.specs.Calls.{compares_nodes, compares_siblings, reads_node};
ghost use Rattle.model.specs.Hierarchy.{is_ancestor_of, get_propagated_specializes_node};
ghost use Rattle.model.specs.Strength.{view, view_of, compare_node_strength, compare_sibling_node_strength};
ghost use Rattle.model.specs.Strength.{is_propagated_specializes};
ghost use Rattle.strength.specs.Comparisons.{Siblings};
ghost use Rattle.strength.specs.Hierarchies.{HierarchyAnswered};

use model::{NodeId, Refusal};
use std::cmp::Ordering;

// Which of two nodes is the stronger: Less where a is, Equal only for one node twice. Refused 1 to
// 4.
pub fn compare_node_strength(arena: &[u8], a: u32, b: u32) -> Result<Ordering, Refusal>
    ensures { AnsweredOrder (ask_arena arena.now (compares_nodes (decode arena.now) a b))
        (compare_node_strength (view_of (decode arena.now)) a b) result }
{
    validate::ask_nodes(arena, a, b)?;
    let root = arena::local_root(arena);
    Ok(crate::comparison::compare_node_strength(arena, root, a, b))
}

// Two siblings, or one node twice, which need not have a parent.
fn compare_siblings(arena: &[u8], a: u32, b: u32) -> Ordering
    requires { Siblings arena.now a b }
    ensures { result ≡ compare_sibling_node_strength (view_of (decode arena.now)) a b }
{
    if a == b {
        return Ordering::Equal;
    }
    let root = arena::local_root(arena);
    crate::comparison::compare_sibling_node_strength(arena, root, a, b)
}

// Which of two siblings is the stronger. Refused 1 to 4 and 8.
pub fn compare_sibling_node_strength(arena: &[u8], a: u32, b: u32) -> Result<Ordering, Refusal>
    ensures { AnsweredOrder (ask_arena arena.now (compares_siblings (decode arena.now) a b))
        (compare_sibling_node_strength (view_of (decode arena.now)) a b) result }
{
    validate::ask_siblings(arena, a, b)?;
    Ok(compare_siblings(arena, a, b))
}

// Whether x is met from y upward, y counted, before the local root and node 0. Refused 1 to 4.
pub fn is_ancestor_of(arena: &[u8], x: u32, y: u32) -> Result<bool, Refusal>
    ensures { AnsweredTest (ask_arena arena.now (compares_nodes (decode arena.now) x y))
        (is_ancestor_of (view (decode arena.now).nodes) x y) result }
{
    validate::ask_nodes(arena, x, y)?;
    let root = arena::local_root(arena);
    Ok(view::is_ancestor_of(arena, root, x, y))
}

// Whether two nodes have one site: the same stack and the same path. Refused 1 to 4.
pub fn same_site(arena: &[u8], a: u32, b: u32) -> Result<bool, Refusal>
    ensures { AnsweredTest (ask_arena arena.now (compares_nodes (decode arena.now) a b))
        ((view (decode arena.now).nodes).same_site a b) result }
{
    validate::ask_nodes(arena, a, b)?;
    Ok(view::same_site(arena, a, b))
}

// Where a class hierarchy starts: the node that inherits or specializes, and the topmost class, if
// there is one.
#[derive(Clone, Copy)]
pub struct Hierarchy {
    pub instance: NodeId,
    pub class_node: Option<NodeId>,
}

// Whether node n is a propagated specializes: arc Specialize, the local root as parent, and its
// origin's site. Refused 1 to 4.
pub fn is_propagated_specializes(arena: &[u8], n: u32) -> Result<bool, Refusal>
    ensures { AnsweredTest (ask_arena arena.now (reads_node (decode arena.now) n))
        (is_propagated_specializes (view (decode arena.now).nodes) n) result }
{
    validate::ask_node(arena, n)?;
    let root = arena::local_root(arena);
    Ok(view::is_propagated_specializes(arena, root, n))
}

// The propagated specializes under the local root whose origin is node n, if there is one. Refused
// 1 to 4.
pub fn get_propagated_specializes_node(arena: &[u8], n: u32) -> Result<Option<NodeId>, Refusal>
    ensures { AnsweredNode (ask_arena arena.now (reads_node (decode arena.now) n))
        (get_propagated_specializes_node (decode arena.now) n) result }
{
    validate::ask_node(arena, n)?;
    let root = arena::local_root(arena);
    let found = crate::propagated::find_copy(arena, root, n);
    Ok(NodeId::from_number(found))
}

// Where the class hierarchy of node n starts, and its topmost class. Refused 1 to 4.
pub fn starting_node_of_class_hierarchy(arena: &[u8], n: u32) -> Result<Hierarchy, Refusal>
    ensures { HierarchyAnswered arena.now n result }
{
    validate::ask_node(arena, n)?;
    let root = arena::local_root(arena);
    let found = view::starting_node_of_class_hierarchy(arena, root, n);
    Ok(Hierarchy {
        instance: NodeId(found.instance),
        class_node: NodeId::from_number(found.class_node),
    })
}
