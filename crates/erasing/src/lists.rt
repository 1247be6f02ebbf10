// What erasing leaves of numbers, child lists and order, found in lent arrays over the unchanged
// arena: the new number of each node, the child lists of the kept nodes one after the other, and
// the order without what goes. It never refuses and never writes the arena: the arena holds a
// graph, which its callers prove. specs/KeptLists.antt says what stands in the arrays.
ghost use Rattle.std.specs.Prelude.{◌≡◌, ◌+◌, ◌≤◌, ◌<◌, length};
ghost use Rattle.std.proofs.Math.Seq.{slice};
ghost use Rattle.model.specs.Arena.{count_in, decode};
ghost use Rattle.model.specs.ArenaCalls.{ValidArena};
ghost use Rattle.model.specs.Erasing.{stays, new_number, erase};
ghost use Rattle.model.specs.Graph.{children_of};
ghost use Rattle.child_lists.specs.Links.{Segments};
ghost use Rattle.erasing.specs.KeptLists.{Numbers, kept_list, Gathered};

// The new number of each node: how many are kept below it. Answers how many are kept in all.
pub fn number(set: &[u8], count: u32, numbers: &mut [u32]) -> u32
    requires { (length set.now ≡ 1024) × (length numbers.old ≡ 1024) × (count ≤ 1024) }
    ensures { (result ≡ new_number (stays set.now) count)
        × Numbers set.now count numbers.new }
{
    let mut kept: u32 = 0;
    for n in 0..count {
        let i = n as usize;
        numbers[i] = kept;
        if set[i] == 0 {
            kept += 1;
        }
    }
    kept
}

// Puts the new numbers of the kept children of a node into `lists` from `start` on, and answers
// where they end.
fn gather_list(
    arena: &[u8],
    set: &[u8],
    numbers: &[u32],
    parent: u32,
    lists: &mut [u32],
    start: usize,
) -> usize
    requires valid_arena { ValidArena arena.now × (parent < count_in arena.now)
        × Numbers set.now (count_in arena.now) numbers.now }
    requires set_len { (length set.now ≡ 1024) × (length lists.old ≡ 1024)
        × (start + length (children_of (decode arena.now) parent) ≤ 1024) }
    ensures { Gathered (kept_list set.now (children_of (decode arena.now) parent)) start result
        lists.old lists.new }
{
    let mut end = start;
    let mut child = arena::first_child(arena, parent);
    while child != arena::NO_NODE {
        let i = child as usize;
        child = arena::next_sibling(arena, child);
        if set[i] == 0 {
            lists[end] = numbers[i];
            end += 1;
        }
    }
    end
}

// The child lists of the kept nodes by new numbers, one after the other in `lists`; `ends` has
// where each ends.
pub fn gather_lists(
    arena: &[u8],
    set: &[u8],
    numbers: &[u32],
    count: u32,
    lists: &mut [u32],
    ends: &mut [u32],
)
    requires valid_arena { ValidArena arena.now × (count ≡ count_in arena.now) × Numbers set.now count numbers.now }
    requires set_len { (length set.now ≡ 1024) × (length lists.old ≡ 1024) × (length ends.old ≡ 1024) }
    ensures { Segments (children_of (erase set.now (decode arena.now)))
        (new_number (stays set.now) count) lists.new ends.new }
{
    let mut start: usize = 0;
    for parent in 0..count {
        if set[parent as usize] == 0 {
            let end = gather_list(arena, set, numbers, parent, lists, start);
            ends[numbers[parent as usize] as usize] = end as u32;
            start = end;
        }
    }
}

// The order without what goes, by new numbers, at the front of `order`; answers how many entries it
// has: none where the graph is not ordered.
pub fn filter_order(arena: &[u8], set: &[u8], numbers: &[u32], count: u32, order: &mut [u32]) -> u32
    requires valid_arena { ValidArena arena.now × (count ≡ count_in arena.now) × Numbers set.now count numbers.now }
    requires set_len { (length set.now ≡ 1024) × (length order.old ≡ 1024) }
    ensures { (result ≤ 1024)
        × (slice 0 result order.new ≡ (erase set.now (decode arena.now)).order) }
{
    if arena::ordered(arena) != 1 {
        return 0;
    }
    let mut kept: u32 = 0;
    for n in 0..count {
        let i = arena::order_entry(arena, n) as usize;
        if set[i] == 0 {
            order[kept as usize] = numbers[i];
            kept += 1;
        }
    }
    kept
}
