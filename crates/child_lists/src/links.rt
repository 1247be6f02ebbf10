// The links that child lists make, in three arrays that are then stored in the arena, as an order
// is, a loop each. It decides nothing and asks nothing of the graph. specs/Links.antt says what
// stands in the arrays, and what is stored.
ghost use Rattle.std.specs.Prelude.{◌≡◌, ℕ, ◌<◌, ◌≤◌, length, get_or};
ghost use Rattle.std.proofs.Math.Seq.{slice};
ghost use Rattle.model.specs.Arena.{arena_bytes, first_of, last_of, order_stored};
ghost use Rattle.child_lists.specs.Links.{Parted, nexts_set, Linked, links_written};

use model::NodeId;

// The last child of the list that stands in `sorted` from `start` to `end`, 4,294,967,295 for none.
pub(crate) fn last_of(sorted: &[u32], start: usize, end: usize) -> u32
    requires { (start ≤ end) × (end ≤ length sorted.now) }
    ensures { result ≡ last_of (slice start end sorted.now) }
{
    if start < end {
        return sorted[end - 1];
    }
    arena::NO_NODE
}

// Links the children of that list, the last one first, and answers its first child, 4,294,967,295
// for none.
fn link_list(sorted: &[u32], start: usize, end: usize, next: &mut [u32]) -> u32
    requires start_le_end { (start ≤ end) × (end ≤ length sorted.now) × (length next.old ≡ 1024) }
    requires by_index { (k : ℕ) → k < end → get_or sorted.now k 0 < 1024 }
    ensures { (result ≡ first_of (slice start end sorted.now))
        × (next.new ≡ nexts_set (slice start end sorted.now) next.old) }
{
    let mut head: u32 = arena::NO_NODE;
    for at in (start..end).rev() {
        let child = sorted[at];
        next[child as usize] = head;
        head = child;
    }
    head
}

// The first and the last child of each of `count` nodes and the sibling after it, 4,294,967,295 for
// none.
pub fn link_lists(
    sorted: &[u32],
    ends: &[u32],
    count: u32,
    first: &mut [u32],
    last: &mut [u32],
    next: &mut [u32],
)
    requires parted { Parted sorted.now ends.now count × (count ≤ 1024) }
    requires first_len { (length first.old ≡ 1024) × (length last.old ≡ 1024) × (length next.old ≡ 1024) }
    ensures { Linked sorted.now ends.now count first.new last.new
        next.old next.new }
{
    next[0] = arena::NO_NODE;
    let mut start: usize = 0;
    for parent in 0..count {
        let i = parent as usize;
        let end = ends[i] as usize;
        last[i] = last_of(sorted, start, end);
        first[i] = link_list(sorted, start, end, next);
        start = end;
    }
}

// Stores the links of each node.
pub fn write_links(arena: &mut [u8], count: u32, first: &[u32], last: &[u32], next: &[u32])
    requires arena_len { (length arena.old ≡ arena_bytes) × (count ≤ 1024) }
    requires first_len { (length first.now ≡ 1024) × (length last.now ≡ 1024) × (length next.now ≡ 1024) }
    ensures { arena.new ≡ links_written first.now last.now next.now count
        arena.old }
{
    for n in 0..count {
        let i = n as usize;
        let node = arena::load_node(arena, n);
        let parent = node
            .with_first_child(NodeId(first[i]))
            .with_last_child(NodeId(last[i]));
        let linked = parent.with_next_sibling(NodeId(next[i]));
        arena::store_links(arena, n, linked);
    }
}

// Stores the first `count` entries of an order.
pub fn write_entries(arena: &mut [u8], count: u32, order: &[u32])
    requires { (length arena.old ≡ arena_bytes) × (count ≤ 1024) × (length order.now ≡ 1024) }
    ensures { arena.new ≡ order_stored (slice 0 count order.now) 0 arena.old }
{
    for n in 0..count {
        arena::write_order_entry(arena, n, order[n as usize]);
    }
}
