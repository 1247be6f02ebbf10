// The strength of two nodes, `compare_node_strength`, and of two siblings,
// `compare_sibling_node_strength`: a cycle of functions that ask each other about lower nodes.
// Siblings join it where their own records do not settle them (`compare_siblings`).
// Document 01's lists of lines stand outside the cycle, in lines.rt and specializes.rt: they settle
// two siblings, or say which two nodes to ask.
ghost use Rattle.std.specs.Prelude.{◌≡◌};
ghost use Rattle.model.specs.Strength.{compare_sibling_node_strength, compare_node_strength};
ghost use Rattle.view.specs.View.{view_in, ValidNodeAndRoot};
ghost use Rattle.strength.specs.Verdicts.{Pair};

use model::Verdict;
use std::cmp::Ordering;
use view::Parting;

// Which of two siblings is the stronger. Two arcs settle it here: a caller's loop has no call for
// them.
pub fn compare_sibling_node_strength(arena: &[u8], root: u32, a: u32, b: u32) -> Ordering
    requires { Pair arena.now root a b }
    ensures { result ≡ compare_sibling_node_strength (view_in arena.now) a b }
{
    match crate::lines::by_rank(arena, root, a, b) {
        Some(o) => o,
        None => settle_siblings(arena, root, a, b),
    }
}

// The same. What their own records settle is settled outside the cycle.
fn settle_siblings(arena: &[u8], root: u32, a: u32, b: u32) -> Ordering
    requires { Pair arena.now root a b }
    ensures { result ≡ compare_sibling_node_strength (view_in arena.now) a b }
{
    match crate::lines::settle(arena, root, a, b) {
        Some(o) => o,
        None => compare_siblings(arena, root, a, b),
    }
}

// The same of two whose arcs have one rank. A node asked with itself is Equal, and need not be
// walked.
#[cycle(compare_node_strength_compare_siblings)]
fn compare_siblings(arena: &[u8], root: u32, a: u32, b: u32) -> Ordering
    requires { Pair arena.now root a b × ((view_in arena.now).rank a ≡ (view_in arena.now).rank b) }
    ensures { result ≡ compare_sibling_node_strength (view_in arena.now) a b }
{
    match crate::lines::weigh(arena, root, a, b) {
        Verdict::Settled(o) => o,
        Verdict::Ask(x, y, o) => {
            if x == y {
                return o;
            }
            compare_node_strength(arena, root, x, y).then(o)
        }
    }
}

// Which of two nodes is the stronger.
#[cycle(compare_node_strength_compare_siblings)]
pub fn compare_node_strength(arena: &[u8], root: u32, a: u32, b: u32) -> Ordering
    requires { ValidNodeAndRoot arena.now root a × ValidNodeAndRoot arena.now root b }
    ensures { result ≡ compare_node_strength (view_in arena.now) a b }
{
    match view::part_chains(arena, a, b) {
        Parting::Same => Ordering::Equal,
        Parting::Above => Ordering::Less,
        Parting::Below => Ordering::Greater,
        Parting::Apart(x, y) => match crate::lines::by_rank(arena, root, x, y) {
            Some(o) => o,
            None => compare_siblings(arena, root, x, y),
        },
    }
}
