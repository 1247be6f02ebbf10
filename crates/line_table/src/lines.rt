// Document 01's lines on two siblings, by their entries alone.
ghost use Rattle.model.specs.Strength.{same_origin_lines, local_line, same_root_lines};
ghost use Rattle.model.specs.Strength.{origin_lines, specializes_lines, plain_lines};
ghost use Rattle.strength.proofs.VerdictNumbers.{by_sibling};
ghost use Rattle.line_table.specs.LineTable.{Always, NestedAtDepths, Orders, Weighs, WeighsBy};

use crate::Entry;
use model::Verdict;
use std::cmp::Ordering;

// "Smaller sibling number, then smaller node number."
fn by_sibling(a: Entry, b: Entry) -> Ordering
    ensures { Orders by_sibling a b result }
{
    if a.sibling != b.sibling {
        return strength::by_number(a.sibling, b.sibling);
    }
    strength::by_number(a.node, b.node)
}

// "2. Same origin: authored, sibling number, then node number; else implied over not implied, then
// node number."
fn same_origin(a: Entry, b: Entry) -> Ordering
    ensures { Orders same_origin_lines a b result }
{
    if a.authored {
        return by_sibling(a, b);
    }
    if b.authored {
        return by_sibling(a, b);
    }
    strength::by_having(a.implied, b.implied).then(strength::by_number(a.node, b.node))
}

// "If neither is authored and both have the local root's stack, implied over not".
fn local_line(a: Entry, b: Entry) -> Ordering
    ensures { Orders local_line a b result }
{
    if a.authored {
        return Ordering::Equal;
    }
    if b.authored {
        return Ordering::Equal;
    }
    if !a.local {
        return Ordering::Equal;
    }
    if !b.local {
        return Ordering::Equal;
    }
    strength::by_having(a.implied, b.implied)
}

// "4. Smaller class depth; more hops; if neither is authored and both have the local root's stack,
// implied over not; node strength of the origins."
fn weigh_same_root(a: Entry, b: Entry) -> Verdict
    ensures { WeighsBy same_root_lines Always a b result }
{
    if a.class_depth != b.class_depth {
        return Verdict::Settled(strength::by_number(a.class_depth, b.class_depth));
    }
    if a.hops != b.hops {
        return Verdict::Settled(strength::by_number(b.hops, a.hops));
    }
    match local_line(a, b) {
        Ordering::Less => Verdict::Settled(Ordering::Less),
        Ordering::Equal => Verdict::Ask(a.origin, b.origin, strength::by_number(a.node, b.node)),
        Ordering::Greater => Verdict::Settled(Ordering::Greater),
    }
}

// "2. Same origin [..] 3. R differ: node strength of them. 4. [..]"
fn weigh_origins(a: Entry, b: Entry) -> Verdict
    ensures { WeighsBy origin_lines Always a b result }
{
    if a.origin == b.origin {
        return Verdict::Settled(same_origin(a, b));
    }
    if a.root == b.root {
        return weigh_same_root(a, b);
    }
    Verdict::Ask(a.root, b.root, strength::by_number(a.node, b.node))
}

// The list for two that are HAS_SPECIALIZES. "1. Unless R(a), R(b) are nested: larger depth."
fn weigh_specializes(a: Entry, b: Entry, nested: bool) -> Verdict
    ensures { WeighsBy specializes_lines (NestedAtDepths a b nested) a b result }
{
    if a.depth == b.depth {
        return weigh_origins(a, b);
    }
    if nested {
        return weigh_origins(a, b);
    }
    Verdict::Settled(strength::by_number(b.depth, a.depth))
}

// "3. Larger depth. 4. Node strength of the origins. 5. Smaller sibling number, then smaller node
// number."
fn weigh_plain(a: Entry, b: Entry) -> Verdict
    ensures { WeighsBy plain_lines Always a b result }
{
    if a.depth != b.depth {
        return Verdict::Settled(strength::by_number(b.depth, a.depth));
    }
    Verdict::Ask(a.origin, b.origin, by_sibling(a, b))
}

// What the lines say of the siblings a and b. `nested`, whether R of the two are nested, is read
// only of two HAS_SPECIALIZES with two depths.
pub fn weigh(a: Entry, b: Entry, nested: bool) -> Verdict
    ensures { Weighs a b nested result }
{
    if a.rank != b.rank {
        return Verdict::Settled(strength::by_number(a.rank, b.rank));
    }
    if !a.special {
        return weigh_plain(a, b);
    }
    if !b.special {
        return weigh_plain(a, b);
    }
    weigh_specializes(a, b, nested)
}
