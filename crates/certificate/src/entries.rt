// Two entries by document 01's lines: before one another, and following one another as copies do.
ghost use Rattle.std.specs.Prelude.{◌≡◌, true, not, ◌||◌, cond, ◌≤◌, ◌<◌, length};
ghost use Rattle.model.specs.Places.{by_place};
ghost use Rattle.certificate.specs.Certificate.{place_in, Placed, IsBefore, SameStack};
ghost use Rattle.certificate.specs.Certificate.{FollowsBy, NextBy, RisesOver};

use line_table::Entry;
use model::Verdict;
use std::cmp::Ordering;

// The strength of nodes x and y, read off their places: the one with the lower place is the
// stronger.
pub fn by_places(places: &[u16], x: u32, y: u32) -> Ordering
    requires { (x < length places.now) × (y < length places.now) × (length places.now ≤ 1024) }
    ensures { result ≡ by_place (place_in places.now) x y }
{
    let from = u32::from(places[x as usize]);
    let to = u32::from(places[y as usize]);
    strength::by_number(from, to)
}

// Whether a is before b by the lines, which ask the places for the strength of nodes.
pub(crate) fn is_before(places: &[u16], a: Entry, b: Entry, nested: bool) -> bool
    requires { Placed places.now a × Placed places.now b }
    ensures { IsBefore places.now a b nested result }
{
    match line_table::weigh(a, b, nested) {
        Verdict::Settled(o) => o.is_lt(),
        Verdict::Ask(x, y, o) => by_places(places, x, y).then(o).is_lt(),
    }
}

// Whether a child is HAS_SPECIALIZES with another origin than its parent: then its lines are not
// transitive by themselves.
pub(crate) fn is_copy(e: Entry) -> bool
    ensures { result ≡ not (not e.special || e.authored) }
{
    if !e.special {
        return false;
    }
    !e.authored
}

// Whether b follows a, which has its R, class depth, hops and stack: by implied in the local root's
// stack and then the origins; for one origin, by implied and then the node number.
fn follows_in_stack(places: &[u16], a: Entry, b: Entry) -> bool
    requires { Placed places.now a × Placed places.now b × SameStack a b }
    ensures { FollowsBy places.now a b result }
{
    let implied = strength::by_having(a.implied, b.implied);
    if a.origin == b.origin {
        return implied.then(strength::by_number(a.node, b.node)).is_lt();
    }
    let origins = by_places(places, a.origin, b.origin);
    if a.local {
        return implied.then(origins).is_lt();
    }
    origins.is_lt()
}

// Whether b follows a by lines that pass on from neighbour to neighbour, all HAS_SPECIALIZES;
// laws/proofs/OrderCopies.antt says what for.
fn follows(places: &[u16], a: Entry, b: Entry) -> bool
    requires { Placed places.now a × Placed places.now b }
    ensures { FollowsBy places.now a b result }
{
    if a.root != b.root {
        return by_places(places, a.root, b.root).is_lt();
    }
    if a.class_depth != b.class_depth {
        return a.class_depth < b.class_depth;
    }
    if a.hops != b.hops {
        return b.hops < a.hops;
    }
    if a.local != b.local {
        return false;
    }
    follows_in_stack(places, a, b)
}

// Whether `next` is HAS_SPECIALIZES, follows `last`, and has its R where depths differ.
pub(crate) fn comes_next(places: &[u16], last: Entry, next: Entry, uneven: bool) -> bool
    requires { Placed places.now last × Placed places.now next }
    ensures { NextBy places.now last next uneven result }
{
    if !next.special {
        return false;
    }
    if !uneven {
        return follows(places, last, next);
    }
    if next.root != last.root {
        return false;
    }
    follows(places, last, next)
}

// Whether e, if it is authored, comes after a sibling number and a node number.
pub(crate) fn rises(sibling: u32, node: u32, e: Entry) -> bool
    ensures { result ≡ true → RisesOver sibling node e }
{
    if !e.authored {
        return true;
    }
    (sibling, node) < (e.sibling, e.node)
}

// A number of an authored one, else the other.
pub(crate) fn if_authored(e: Entry, number: u32, other: u32) -> u32
    ensures { result ≡ cond e.authored number other }
{
    if e.authored {
        return number;
    }
    other
}
