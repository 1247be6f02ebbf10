// Child lists that stand in an array stored as links in the arena, list by list: no array of links
// is made. Each link is stored through its node's record, of which the other links stay.
ghost use Rattle.std.specs.Prelude.{◌≡◌, ℕ, ◌<◌, ◌≤◌, length, get_or};
ghost use Rattle.std.proofs.Math.Seq.{slice};
ghost use Rattle.model.specs.Arena.{arena_bytes, first_of};
ghost use Rattle.arena.specs.Slot.{HasSlot};
ghost use Rattle.child_lists.specs.Links.{Parted, next_stored, ends_stored, nexts_stored, lists_stored};

use model::NodeId;

// Stores the sibling after node n.
fn store_next(arena: &mut [u8], n: u32, next: u32)
    requires { HasSlot arena.old n }
    ensures { arena.new ≡ next_stored n next arena.old }
{
    let node = arena::load_node(arena, n);
    let linked = node.with_next_sibling(NodeId(next));
    arena::store_links(arena, n, linked);
}

// Stores the first and the last child of node n.
fn store_ends(arena: &mut [u8], n: u32, first: u32, last: u32)
    requires { HasSlot arena.old n }
    ensures { arena.new ≡ ends_stored n first last arena.old }
{
    let node = arena::load_node(arena, n);
    let linked = node
        .with_first_child(NodeId(first))
        .with_last_child(NodeId(last));
    arena::store_links(arena, n, linked);
}

// Stores the siblings after the children of the list that stands in `sorted` from `start` to `end`,
// the last one first, and answers its first child, 4,294,967,295 for none.
fn store_nexts(arena: &mut [u8], sorted: &[u32], start: usize, end: usize) -> u32
    requires arena_len { (length arena.old ≡ arena_bytes) × (start ≤ end) × (end ≤ length sorted.now) }
    requires by_index { (k : ℕ) → k < end → get_or sorted.now k 0 < 1024 }
    ensures { (result ≡ first_of (slice start end sorted.now))
        × (arena.new ≡ nexts_stored (slice start end sorted.now) arena.old) }
{
    let mut head: u32 = arena::NO_NODE;
    for at in (start..end).rev() {
        let child = sorted[at];
        store_next(arena, child, head);
        head = child;
    }
    head
}

// Stores the links of the lists of `count` nodes.
pub fn store_lists(arena: &mut [u8], count: u32, sorted: &[u32], ends: &[u32])
    requires { (length arena.old ≡ arena_bytes) × (count ≤ 1024) × Parted sorted.now ends.now count }
    ensures { arena.new ≡ lists_stored sorted.now ends.now count
        arena.old }
{
    let mut start: usize = 0;
    for parent in 0..count {
        let end = ends[parent as usize] as usize;
        let first = store_nexts(arena, sorted, start, end);
        let last = crate::links::last_of(sorted, start, end);
        store_ends(arena, parent, first, last);
        start = end;
    }
}
