// Erasing nodes of an arena, in place. New numbers, child lists, links and order are found first,
// in local arrays over the unchanged arena (lists.rt, crates/child_lists); then each kept record
// moves to its new slot (records.rt), and links, order and header are stored. It never refuses:
// that the arena holds a graph and that the set passes question 11 its callers prove.
// specs/EraseNodes.antt says what is found and what is left.
ghost use Rattle.std.specs.Prelude.{◌≡◌, true, ◌<◌, length};
ghost use Rattle.model.specs.Arena.{arena_bytes, count_in, decode, encode};
ghost use Rattle.model.specs.ArenaCalls.{ValidArena};
ghost use Rattle.model.specs.Erasing.{stays, can_erase, new_number, erase as erased};
ghost use Rattle.arena.specs.Header.{count_stored, local_root_stored};
ghost use Rattle.erasing.specs.EraseRecords.{NumberResult};
ghost use Rattle.erasing.specs.EraseNodes.{ErasedArena, LinksFound};

// The links of the kept nodes, by new numbers.
fn find_links(
    arena: &[u8],
    set: &[u8],
    numbers: &[u32],
    count: u32,
    kept: u32,
    first: &mut [u32],
    last: &mut [u32],
    next: &mut [u32],
)
    requires number_result { NumberResult arena.now set.now count numbers.now × (kept ≡ new_number (stays set.now) count) }
    requires first_len { (length first.old ≡ 1024) × (length last.old ≡ 1024) × (length next.old ≡ 1024) }
    ensures { LinksFound (erased set.now (decode arena.now)) kept first.new
        last.new next.old next.new }
{
    let mut lists: [u32; 1024] = [0; 1024];
    let mut ends: [u32; 1024] = [0; 1024];
    crate::lists::gather_lists(arena, set, numbers, count, &mut lists, &mut ends);
    child_lists::link_lists(&lists, &ends, kept, first, last, next);
}

// Stores the count and the local root. The marks stay.
fn write_header(arena: &mut [u8], kept: u32, root: u32)
    requires { length arena.old ≡ arena_bytes }
    ensures { arena.new ≡ local_root_stored root (count_stored kept arena.old) }
{
    arena::write_count(arena, kept);
    arena::write_local_root(arena, root);
}

// Erases by new numbers: links and order are found, then all is stored.
fn write_erased(arena: &mut [u8], set: &[u8], numbers: &[u32], count: u32, kept: u32)
    requires { NumberResult arena.old set.now count numbers.now × (kept ≡ new_number (stays set.now) count) }
    ensures { arena.new ≡ encode (erased set.now (decode arena.old))
        arena.old }
{
    let mut first: [u32; 1024] = [0; 1024];
    let mut last: [u32; 1024] = [0; 1024];
    let mut next: [u32; 1024] = [0; 1024];
    let mut order: [u32; 1024] = [0; 1024];
    find_links(
        arena, set, numbers, count, kept, &mut first, &mut last, &mut next,
    );
    let listed = crate::lists::filter_order(arena, set, numbers, count, &mut order);
    let root = arena::local_root(arena);
    crate::records::move_records(arena, set, numbers, count);
    child_lists::write_links(arena, kept, &first, &last, &next);
    child_lists::write_entries(arena, listed, &order);
    write_header(arena, kept, crate::records::new_link(numbers, count, root));
}

// Erases the nodes that the set names, and answers how many are kept.
pub fn erase(arena: &mut [u8], set: &[u8]) -> u32
    requires valid_arena { ValidArena arena.old × (0 < count_in arena.old) }
    requires set_len { (length set.now ≡ 1024) × (can_erase (decode arena.old) set.now ≡ true) }
    ensures { ErasedArena set.now arena.old result arena.new }
{
    let mut numbers: [u32; 1024] = [0; 1024];
    let count = arena::count(arena);
    let kept = crate::lists::number(set, count, &mut numbers);
    write_erased(arena, set, &numbers, count, kept);
    kept
}
