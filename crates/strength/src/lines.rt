// Document 01's lines on two siblings, but for those on two that are HAS_SPECIALIZES.
ghost use Rattle.std.specs.Prelude.{◌≡◌, false, ◌&&◌};
ghost use Rattle.model.specs.ArenaCalls.{ValidNode};
ghost use Rattle.model.specs.Strength.{plain_lines, sibling_lines};
ghost use Rattle.view.specs.View.{view_in};
ghost use Rattle.strength.specs.Verdicts.{Pair, DecidedBy};
ghost use Rattle.strength.specs.Settled.{IsSettledEarly};

use model::Verdict;
use std::cmp::Ordering;

// "3. Larger depth. 4. Node strength of the origins. 5. Smaller sibling number, then smaller node
// number."
fn weigh_plain(arena: &[u8], root: u32, a: u32, b: u32) -> Verdict
    requires { Pair arena.now root a b }
    ensures { DecidedBy (plain_lines (view_in arena.now)) arena.now a b result }
{
    let x = crate::verdicts::depth(arena, a);
    let y = crate::verdicts::depth(arena, b);
    if x != y {
        return Verdict::Settled(crate::orderings::by_number(y, x));
    }
    let from = view::origin(arena, a);
    let to = view::origin(arena, b);
    Verdict::Ask(from, to, crate::verdicts::by_sibling(arena, a, b))
}

// Whether both are HAS_SPECIALIZES.
fn both_specialize(arena: &[u8], a: u32, b: u32) -> bool
    requires { ValidNode arena.now a × ValidNode arena.now b }
    ensures { result ≡ ((view_in arena.now).special a && (view_in arena.now).special b) }
{
    if view::has_specializes(arena, a) {
        return view::has_specializes(arena, b);
    }
    false
}

// "2. Both HAS_SPECIALIZES: go to the list below." Of two whose arcs have one rank, which pass the
// first line.
pub(crate) fn weigh(arena: &[u8], root: u32, a: u32, b: u32) -> Verdict
    requires { Pair arena.now root a b × ((view_in arena.now).rank a ≡ (view_in arena.now).rank b) }
    ensures { DecidedBy (sibling_lines (view_in arena.now)) arena.now a b result }
{
    if both_specialize(arena, a, b) {
        return crate::specializes::weigh_specializes(arena, root, a, b);
    }
    weigh_plain(arena, root, a, b)
}

// What the plain lines settle at once: where they ask of one node twice, it is Equal.
fn settle_plain(arena: &[u8], root: u32, a: u32, b: u32) -> Option<Ordering>
    requires pair { Pair arena.now root a b × ((view_in arena.now).rank a ≡ (view_in arena.now).rank b) }
    requires b_value { ((view_in arena.now).special a && (view_in arena.now).special b) ≡ false }
    ensures { IsSettledEarly (view_in arena.now) a b result }
{
    match weigh_plain(arena, root, a, b) {
        Verdict::Settled(o) => Some(o),
        Verdict::Ask(x, y, o) => {
            if x == y {
                return Some(o);
            }
            None
        }
    }
}

// "1. Smaller arc."
pub(crate) fn by_rank(arena: &[u8], root: u32, a: u32, b: u32) -> Option<Ordering>
    requires { Pair arena.now root a b }
    ensures { IsSettledEarly (view_in arena.now) a b result }
{
    let x = view::rank(arena, a) as u32;
    let y = view::rank(arena, b) as u32;
    if x != y {
        return Some(crate::orderings::by_number(x, y));
    }
    None
}

// What two siblings' own records settle: their arcs, then the plain lines.
pub(crate) fn settle(arena: &[u8], root: u32, a: u32, b: u32) -> Option<Ordering>
    requires { Pair arena.now root a b }
    ensures { IsSettledEarly (view_in arena.now) a b result }
{
    match by_rank(arena, root, a, b) {
        Some(o) => Some(o),
        None => {
            if both_specialize(arena, a, b) {
                return None;
            }
            settle_plain(arena, root, a, b)
        }
    }
}
