// Whether a list is a node's, and the branches of its children have their places one after the
// other.
ghost use Rattle.std.specs.Prelude.{◌≡◌, true, ◌≤◌, ◌<◌, length};
ghost use Rattle.model.specs.Arena.{count_in};
ghost use Rattle.model.specs.ArenaCalls.{ValidArena};
ghost use Rattle.certificate.specs.Certificate.{Reaches, ChildOf, FitsIn};

// Whether c is a child of the node.
pub fn is_child(arena: &[u8], count: u32, parent: u32, c: u32) -> bool
    requires { ValidArena arena.now × (count ≡ count_in arena.now) }
    ensures { result ≡ true → ChildOf arena.now parent c }
{
    if c == 0 {
        return false;
    }
    if count <= c {
        return false;
    }
    view::parent(arena, c) == parent
}

// Whether a list may stand from `start` to `end`.
pub fn is_part(start: usize, end: usize) -> bool
    ensures { result ≡ true → (start ≤ end) × (end ≤ 1024) }
{
    if end < start {
        return false;
    }
    end <= 1024
}

// Whether the list of a node stands from `start` to `end`, each child once, and the branches of its
// children have their places after the node's, one after the other.
pub(crate) fn branches_fit(
    arena: &[u8],
    sorted: &[u32],
    places: &[u16],
    stops: &[u16],
    parent: u32,
    start: usize,
    end: usize,
) -> bool
    requires valid_arena { ValidArena arena.now × Reaches arena.now places.now × Reaches arena.now stops.now }
    requires sorted_len { (length sorted.now ≡ 1024) × (parent < count_in arena.now) × (start ≤ end) × (end ≤ 1024) }
    ensures { result ≡ true → FitsIn arena.now sorted.now
        places.now stops.now parent start end }
{
    let count = arena::count(arena);
    let mut from = u32::from(places[parent as usize]) + 1;
    for &c in &sorted[start..end] {
        if !is_child(arena, count, parent, c) {
            return false;
        }
        if u32::from(places[c as usize]) < from {
            return false;
        }
        from = u32::from(stops[c as usize]);
    }
    from <= u32::from(stops[parent as usize])
}
