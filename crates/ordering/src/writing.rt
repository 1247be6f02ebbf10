// Ordering a graph in its arena: every child list sorted, or not a byte changed. Where the lists
// stand in order already, only marks and order are written; otherwise they are sorted into two
// local arrays (crates/sorting) over the unchanged arena, and their links are written too
// (crates/child_lists). The definitions are in model/specs/Order.antt; specs/Ordering.antt says
// what the call leaves, and what the walk.
ghost use Rattle.std.specs.Prelude.{true, ◌≡◌, ◌<◌, length};
ghost use Rattle.model.specs.Arena.{arena_bytes, count_in, decode, encode};
ghost use Rattle.model.specs.ArenaCalls.{ValidArena};
ghost use Rattle.model.specs.Order.{sorted_children, has_order, ordering};
ghost use Rattle.child_lists.specs.Links.{Segments};
ghost use Rattle.sorting.specs.Standing.{Stands};
ghost use Rattle.ordering.specs.Ordering.{OrderedArena, marks_written};

// Stores the marks: ordered, and finalized unless shallow.
fn write_state(arena: &mut [u8])
    requires { length arena.old ≡ arena_bytes }
    ensures { arena.new ≡ marks_written arena.old }
{
    let shallow = arena::shallow(arena) == 1;
    arena::write_state(arena, true, !shallow, shallow);
}

// Orders the graph whose lists stand in order: marks and walk.
fn write_standing(arena: &mut [u8], count: u32)
    requires { ValidArena arena.old × (count ≡ count_in arena.old) × (0 < count)
        × Stands (decode arena.old) true }
    ensures { arena.new ≡ encode (ordering (decode arena.old)) arena.old }
{
    write_state(arena);
    crate::walking::write_walk(arena, count);
}

// Orders the graph whose sorted lists these are: marks, links and walk.
fn write_sorted(arena: &mut [u8], count: u32, sorted: &[u32], ends: &[u32])
    requires valid_arena { ValidArena arena.old × (count ≡ count_in arena.old) × (0 < count)
        × (has_order (decode arena.old) ≡ true) }
    requires segments { Segments (sorted_children (decode arena.old)) count sorted.now ends.now }
    ensures { arena.new ≡ encode (ordering (decode arena.old)) arena.old }
{
    write_state(arena);
    child_lists::store_lists(arena, count, sorted, ends);
    crate::walking::write_walk(arena, count);
}

// Sorts the lists and orders the graph, or answers false where one has no order, and then changes
// nothing.
fn sort_graph(arena: &mut [u8], count: u32) -> bool
    requires { ValidArena arena.old × (count ≡ count_in arena.old) × (0 < count) }
    ensures { OrderedArena arena.old result arena.new }
{
    let mut sorted: [u32; 1024] = [0; 1024];
    let mut ends: [u32; 1024] = [0; 1024];
    let root = arena::local_root(arena);
    if !sorting::sort_children(arena, root, count, &mut sorted, &mut ends) {
        return false;
    }
    write_sorted(arena, count, &sorted, &ends);
    true
}

// Orders the graph and answers true, or answers false where a child list has no order, and then
// changes nothing.
pub fn order_graph(arena: &mut [u8]) -> bool
    requires { ValidArena arena.old × (0 < count_in arena.old) }
    ensures { OrderedArena arena.old result arena.new }
{
    let count = arena::count(arena);
    if sorting::stands(arena, count) {
        write_standing(arena, count);
        return true;
    }
    sort_graph(arena, count)
}
