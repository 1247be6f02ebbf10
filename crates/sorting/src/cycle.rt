// A cycle of three siblings, each stronger than the next and the last than the first: the witness
// that their list has no order, by the comparisons themselves. It never writes.
ghost use Rattle.std.specs.Prelude.{◌≡◌, true, false};
ghost use Rattle.model.specs.Arena.{count_in, local_root_in, decode};
ghost use Rattle.model.specs.ArenaCalls.{ValidArena};
ghost use Rattle.model.specs.Order.{has_order};
ghost use Rattle.sorting.specs.Cycle.{Three};

use crate::is_stronger;

// Whether three nodes are children of one parent.
fn are_siblings(arena: &[u8], count: u32, a: u32, b: u32, c: u32) -> bool
    requires { ValidArena arena.now × (count ≡ count_in arena.now) }
    ensures { result ≡ true → Three arena.now a b c }
{
    if a == 0 {
        return false;
    }
    if count <= a {
        return false;
    }
    let parent = view::parent(arena, a);
    if !certificate::is_child(arena, count, parent, b) {
        return false;
    }
    certificate::is_child(arena, count, parent, c)
}

// Whether three nodes are siblings in a cycle.
pub(crate) fn is_cycle(arena: &[u8], root: u32, count: u32, a: u32, b: u32, c: u32) -> bool
    requires { ValidArena arena.now × (root ≡ local_root_in arena.now) × (count ≡ count_in arena.now) }
    ensures { result ≡ true → has_order (decode arena.now) ≡ false }
{
    if !are_siblings(arena, count, a, b, c) {
        return false;
    }
    if !is_stronger(arena, root, a, b) {
        return false;
    }
    if !is_stronger(arena, root, b, c) {
        return false;
    }
    is_stronger(arena, root, c, a)
}
