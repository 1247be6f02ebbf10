// Erase sets: 1,024 bytes, one a node, 1 for what goes and 0 for what stays. The erasable set of a
// graph in one pass from the highest node down, and question 11, whether a set may be erased. It
// never refuses and never writes the arena: the arena holds a graph, which its callers prove.
// specs/MarkedSet.antt says what stands in the set before the pass.
ghost use Rattle.std.specs.Prelude.{◌≡◌, length};
ghost use Rattle.model.specs.Arena.{count_in, decode};
ghost use Rattle.model.specs.ArenaCalls.{ValidArena, ValidNode};
ghost use Rattle.model.specs.Erasing.{erasable, spares_one, can_erase};
ghost use Rattle.model.specs.Lists.{bit};
ghost use Rattle.erasing.specs.MarkedSet.{marks, MarkedBelow};

// 1 where node n is marked; 0 where it is not, and from the count on.
fn mark(arena: &[u8], count: u32, n: u32) -> u8
    requires { ValidArena arena.now × (count ≡ count_in arena.now) }
    ensures { result ≡ bit (marks (decode arena.now) n) }
{
    if n >= count {
        return 0;
    }
    if !validate::is_culled(arena::flags(arena, n)) {
        return 0;
    }
    if arena::has_specs(arena, n) == 1 {
        return 0;
    }
    if view::depth_below(arena, n) == 0 {
        return 0;
    }
    1
}

// Writes each byte of the set by its mark.
fn mark_all(arena: &[u8], count: u32, set: &mut [u8])
    requires valid_arena { ValidArena arena.now × (count ≡ count_in arena.now) }
    requires set_len { length set.old ≡ 1024 }
    ensures { MarkedBelow (decode arena.now) 1024 set.new }
{
    for n in 0..arena::MAX_NODES {
        set[n as usize] = mark(arena, count, n);
    }
}

// Unmarks what a node that stays reaches by parents and origins: both are lower than the node, so
// one pass from the highest down finds every one.
fn unmark_reachable(arena: &[u8], count: u32, set: &mut [u8])
    requires valid_arena { ValidArena arena.now × (count ≡ count_in arena.now) }
    requires marked_below { MarkedBelow (decode arena.now) 1024 set.old }
    ensures { set.new ≡ erasable (decode arena.now) }
{
    for n in (1..count).rev() {
        if set[n as usize] == 0 {
            let parent = view::parent(arena, n);
            let origin = view::origin(arena, n);
            set[parent as usize] = 0;
            set[origin as usize] = 0;
        }
    }
}

// Writes the erasable set.
pub fn erasable(arena: &[u8], set: &mut [u8])
    requires valid_arena { ValidArena arena.now }
    requires set_len { length set.old ≡ 1024 }
    ensures { set.new ≡ erasable (decode arena.now) }
{
    let count = arena::count(arena);
    mark_all(arena, count, set);
    unmark_reachable(arena, count, set);
}

// Whether the set's byte of node n is right: 0, and the node's parent and origin stay, or 1, and
// its arc is not Root. Node 0 has no parent and no origin.
fn spares_one(arena: &[u8], set: &[u8], n: u32) -> bool
    requires valid_node { ValidNode arena.now n }
    requires set_len { length set.now ≡ 1024 }
    ensures { result ≡ spares_one (decode arena.now) set.now n }
{
    let byte = set[n as usize];
    if byte == 0 {
        if n == 0 {
            return true;
        }
        let parent = view::parent(arena, n);
        if set[parent as usize] != 0 {
            return false;
        }
        let origin = view::origin(arena, n);
        return set[origin as usize] == 0;
    }
    if byte > 1 {
        return false;
    }
    view::arc(arena, n) != arena::arcs::ROOT
}

// Whether the set may be erased: question 11.
pub fn can_erase(arena: &[u8], set: &[u8]) -> bool
    requires valid_arena { ValidArena arena.now }
    requires set_len { length set.now ≡ 1024 }
    ensures { result ≡ can_erase (decode arena.now) set.now }
{
    let count = arena::count(arena);
    for n in 0..count {
        if !spares_one(arena, set, n) {
            return false;
        }
    }
    true
}
