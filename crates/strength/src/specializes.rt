// Document 01's list for two siblings that are HAS_SPECIALIZES. R of each is found once and handed
// down; same_root.rt has the lines for one origin and for one R.
ghost use Rattle.std.specs.Prelude.{◌≡◌};
ghost use Rattle.model.specs.Strength.{origin_lines, depth_line, specializes_lines};
ghost use Rattle.view.specs.View.{view_in};
ghost use Rattle.view.specs.Walks.{RootOf};
ghost use Rattle.strength.specs.Verdicts.{Pair, DecidedBy};

use model::Verdict;
use std::cmp::Ordering;
use view::OriginRoot;

// "2. Same origin [..] 3. R differ: node strength of them. 4. [..]"
fn weigh_origins(arena: &[u8], root: u32, a: u32, b: u32, ra: OriginRoot, rb: OriginRoot) -> Verdict
    requires { Pair arena.now root a b × RootOf (view_in arena.now) a ra × RootOf (view_in arena.now) b rb }
    ensures { DecidedBy (origin_lines (view_in arena.now)) arena.now a b result }
{
    let x = view::origin(arena, a);
    let y = view::origin(arena, b);
    if x == y {
        return Verdict::Settled(crate::same_root::same_origin(arena, root, a, b));
    }
    if ra.node == rb.node {
        return crate::same_root::weigh_same_root(arena, root, a, b, ra, rb);
    }
    Verdict::Ask(ra.node, rb.node, crate::orderings::by_number(a, b))
}

// "1. Unless R(a), R(b) are nested: larger depth." One depth is Equal either way, and the walk is
// not needed.
fn depth_line(arena: &[u8], root: u32, a: u32, b: u32, ra: OriginRoot, rb: OriginRoot) -> Ordering
    requires { Pair arena.now root a b × RootOf (view_in arena.now) a ra × RootOf (view_in arena.now) b rb }
    ensures { result ≡ depth_line (view_in arena.now) a b }
{
    let x = crate::verdicts::depth(arena, a);
    let y = crate::verdicts::depth(arena, b);
    if x == y {
        return Ordering::Equal;
    }
    if view::origins_are_nested(arena, root, ra.node, rb.node) {
        return Ordering::Equal;
    }
    crate::orderings::by_number(y, x)
}

// The whole list.
pub fn weigh_specializes(arena: &[u8], root: u32, a: u32, b: u32) -> Verdict
    requires { Pair arena.now root a b }
    ensures { DecidedBy (specializes_lines (view_in arena.now)) arena.now a b result }
{
    let ra = view::origin_root_node(arena, a);
    let rb = view::origin_root_node(arena, b);
    match depth_line(arena, root, a, b, ra, rb) {
        Ordering::Less => Verdict::Settled(Ordering::Less),
        Ordering::Equal => weigh_origins(arena, root, a, b, ra, rb),
        Ordering::Greater => Verdict::Settled(Ordering::Greater),
    }
}
