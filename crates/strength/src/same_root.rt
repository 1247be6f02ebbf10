// Document 01's lines 2 and 4 of the list for two siblings that are HAS_SPECIALIZES: those for one
// origin, and those for one R.
ghost use Rattle.std.specs.Prelude.{◌≡◌};
ghost use Rattle.model.specs.Strength.{same_origin_lines, local_line, same_root_lines};
ghost use Rattle.view.specs.View.{view_in};
ghost use Rattle.view.specs.Walks.{RootOf};
ghost use Rattle.strength.specs.Verdicts.{Pair, DecidedBy};

use model::Verdict;
use std::cmp::Ordering;
use view::OriginRoot;

// "2. Same origin: authored, sibling number, then node number; else implied over not implied, then
// node number."
pub fn same_origin(arena: &[u8], root: u32, a: u32, b: u32) -> Ordering
    requires { Pair arena.now root a b }
    ensures { result ≡ same_origin_lines (view_in arena.now) a b }
{
    if view::is_authored(arena, a) {
        return crate::verdicts::by_sibling(arena, a, b);
    }
    if view::is_authored(arena, b) {
        return crate::verdicts::by_sibling(arena, a, b);
    }
    crate::verdicts::implied_over(arena, root, a, b).then(crate::orderings::by_number(a, b))
}

// "If neither is authored and both have the local root's stack, implied over not".
fn local_line(arena: &[u8], root: u32, a: u32, b: u32) -> Ordering
    requires { Pair arena.now root a b }
    ensures { result ≡ local_line (view_in arena.now) a b }
{
    if view::is_authored(arena, a) {
        return Ordering::Equal;
    }
    if view::is_authored(arena, b) {
        return Ordering::Equal;
    }
    if !view::in_local_stack(arena, root, a) {
        return Ordering::Equal;
    }
    if !view::in_local_stack(arena, root, b) {
        return Ordering::Equal;
    }
    crate::verdicts::implied_over(arena, root, a, b)
}

// "4. Smaller class depth; more hops; if neither is authored and both have the local root's stack,
// implied over not; node strength of the origins."
pub fn weigh_same_root(
    arena: &[u8],
    root: u32,
    a: u32,
    b: u32,
    ra: OriginRoot,
    rb: OriginRoot,
) -> Verdict
    requires { Pair arena.now root a b × RootOf (view_in arena.now) a ra × RootOf (view_in arena.now) b rb }
    ensures { DecidedBy (same_root_lines (view_in arena.now)) arena.now a b result }
{
    let x = view::class_depth(arena, root, a) as u32;
    let y = view::class_depth(arena, root, b) as u32;
    if x != y {
        return Verdict::Settled(crate::orderings::by_number(x, y));
    }
    if ra.hops != rb.hops {
        return Verdict::Settled(crate::orderings::by_number(rb.hops, ra.hops));
    }
    match local_line(arena, root, a, b) {
        Ordering::Less => Verdict::Settled(Ordering::Less),
        Ordering::Equal => crate::verdicts::ask_origins(arena, root, a, b),
        Ordering::Greater => Verdict::Settled(Ordering::Greater),
    }
}
