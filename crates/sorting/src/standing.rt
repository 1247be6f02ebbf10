// Whether a graph's child lists stand in order already, read in the arena as they stand and without
// comparing through origins. It is a sufficient test only: false says nothing. Siblings that are
// all authored compare by arc, larger depth, sibling number and node number
// (laws/proofs/OrderKeys.antt), so each before the next is each before all later ones.
ghost use Rattle.std.specs.Prelude.{true, ◌≡◌};
ghost use Rattle.model.specs.Arena.{count_in, decode};
ghost use Rattle.model.specs.ArenaCalls.{ValidArena, ValidNode};
ghost use Rattle.model.specs.Order.{is_less};
ghost use Rattle.model.specs.Places.{key_lines};
ghost use Rattle.view.specs.View.{view_in};
ghost use Rattle.sorting.specs.Standing.{anywhere, Precedes, PrecedesNext, Stands};

// Whether x is before y by arc, larger depth, sibling number and node number.
fn is_before(arena: &[u8], x: u32, y: u32) -> bool
    requires { ValidNode arena.now x × ValidNode arena.now y }
    ensures { result ≡ is_less (key_lines (view_in arena.now) anywhere x y) }
{
    let rank = view::rank(arena, x);
    let other_rank = view::rank(arena, y);
    if rank != other_rank {
        return rank < other_rank;
    }
    let depth = view::depth(arena, x);
    let other_depth = view::depth(arena, y);
    if depth != other_depth {
        return other_depth < depth;
    }
    let sibling = view::sibling(arena, x);
    let other_sibling = view::sibling(arena, y);
    if sibling != other_sibling {
        return sibling < other_sibling;
    }
    x < y
}

// Whether x and y are authored, and x is before y.
fn precedes(arena: &[u8], x: u32, y: u32) -> bool
    requires { ValidNode arena.now x × ValidNode arena.now y }
    ensures { result ≡ true → Precedes (view_in arena.now) x y }
{
    if !view::is_authored(arena, x) {
        return false;
    }
    if !view::is_authored(arena, y) {
        return false;
    }
    is_before(arena, x, y)
}

// Whether x has no next sibling, or precedes it.
fn precedes_next(arena: &[u8], x: u32) -> bool
    requires { ValidNode arena.now x }
    ensures { result ≡ true → PrecedesNext arena.now x }
{
    let y = arena::next_sibling(arena, x);
    if y == arena::NO_NODE {
        return true;
    }
    precedes(arena, x, y)
}

// Whether each node that has a next sibling precedes it.
pub fn stands(arena: &[u8], count: u32) -> bool
    requires { ValidArena arena.now × (count ≡ count_in arena.now) }
    ensures { Stands (decode arena.now) result }
{
    for x in 0..count {
        if !precedes_next(arena, x) {
            return false;
        }
    }
    true
}
