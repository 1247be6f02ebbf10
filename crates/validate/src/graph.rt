// Whether the bytes of an arena hold a graph: question 2 of document 01, exactly, on any bytes of
// an arena's length. Every public call asks this first, so it is quick: each record and its path
// are read once, and nothing above the count. It writes nothing.
// specs/Validate.antt has the tests, one for each pass; proofs/HoldsTests.antt shows that together
// they are model/specs/Arena.antt's `holds_graph`.
ghost use Rattle.std.specs.Prelude.{◌≡◌, ◌||◌, ◌≤◌, ◌<◌, eqb, length};
ghost use Rattle.model.specs.Arena.{arena_bytes, count_in, record_length_in, local_root_in, state_valid, holds_graph};
ghost use Rattle.path.specs.Tables.{Tables};
ghost use Rattle.arena.specs.Slot.{HasSlot, arc_in, parent_in};
ghost use Rattle.validate.specs.Validate.{marks_at, root_with, depth_valid, numbers_valid, record_valid_after};
ghost use Rattle.validate.specs.Validate.{records_valid, entries_valid, order_valid};

use crate::record::{Before, RecordNumbers};

// Whether these marks, a byte each, may stand together, over any count of nodes.
fn state_allowed(ordered: u8, finalized: u8, shallow: u8) -> bool
    ensures { result ≡ marks_at ordered finalized shallow }
{
    if ordered > 1 {
        return false;
    }
    if finalized > 1 {
        return false;
    }
    if shallow > 1 {
        return false;
    }
    if finalized == 0 {
        return true;
    }
    if ordered != 1 {
        return false;
    }
    shallow == 0
}

// Whether the header's marks are right.
fn state_valid(arena: &[u8]) -> bool
    requires { length arena.now ≡ arena_bytes }
    ensures { result ≡ state_valid arena.now }
{
    state_allowed(
        arena::ordered(arena),
        arena::finalized(arena),
        arena::shallow(arena),
    )
}

// Whether node n is no deeper than its parent has prims, or the mark "shallow" says that some node
// is.
fn depth_valid(arena: &[u8], n: u32, parent: u32) -> bool
    requires { HasSlot arena.now n × (parent ≡ parent_in arena.now n) × (0 < n → parent < n) }
    ensures { result ≡ depth_valid arena.now n }
{
    if n == 0 {
        return true;
    }
    if arena::depth(arena, n) <= (arena::prim_count(arena, parent) as u16) {
        return true;
    }
    arena::shallow(arena) == 1
}

// Whether the numbers of the node that comes next pass the questions on its links, its kind and the
// room left.
fn numbers_valid(arena: &[u8], before: Before, length: usize, arc: u8, parent: u32) -> bool
    requires has_slot { HasSlot arena.now before.count × (length ≡ record_length_in arena.now before.count)
        × (27 ≤ length) × (length ≤ 282) }
    requires arc_value { (arc ≡ arc_in arena.now before.count) × (parent ≡ parent_in arena.now before.count)
        × (before.path_bytes ≤ 32768) }
    ensures { result ≡ numbers_valid arena.now before }
{
    let n = before.count;
    let numbers = RecordNumbers {
        arc: arc,
        flags: arena::flags(arena, n),
        parent: parent,
        origin: arena::origin(arena, n),
        has_specs: arena::has_specs(arena, n),
    };
    if !crate::record::links_allowed(before, numbers) {
        return false;
    }
    if !crate::record::kind_allowed(before, numbers) {
        return false;
    }
    before.path_bytes + (length - arena::offsets::PATH) <= arena::MAX_PATH_BYTES
}

// Whether the record of the node that comes next is right. Its path is read by the tables lent, and
// last: the loop over its bytes is quickest where little else is kept for later.
fn record_valid(kinds: &[u8], pairs: &[u64], arena: &[u8], before: Before, length: usize) -> bool
    requires tables { Tables kinds.now pairs.now }
    requires has_slot { HasSlot arena.now before.count × (length ≡ record_length_in arena.now before.count)
        × (before.path_bytes ≤ 32768) }
    ensures { result ≡ record_valid_after arena.now before }
{
    if length < arena::LEAST_RECORD_BYTES as usize {
        return false;
    }
    if length > arena::MOST_RECORD_BYTES as usize {
        return false;
    }
    let n = before.count;
    let parent = arena::parent(arena, n);
    if !numbers_valid(arena, before, length, arena::arc(arena, n), parent) {
        return false;
    }
    if !depth_valid(arena, n, parent) {
        return false;
    }
    let prims = arena::prim_count(arena, n);
    path::tables::has_names(kinds, pairs, arena::path(arena, n), prims)
}

// The local root where node n, with this arc, comes after those that have the local root `root`:
// where there are none, 0.
fn root_with(n: u32, arc: u8, root: u32) -> u32
    requires { n ≡ 0 → root ≡ 0 }
    ensures { result ≡ root_with n arc root }
{
    if arc != arena::arcs::ROOT {
        return root;
    }
    n
}

// Whether the header has the local root that was found. An empty graph does not use it.
fn root_valid(arena: &[u8], count: u32, root: u32) -> bool
    requires { length arena.now ≡ arena_bytes }
    ensures { result ≡ (eqb count 0 || eqb (local_root_in arena.now) root) }
{
    if count == 0 {
        return true;
    }
    arena::local_root(arena) == root
}

// Whether every record is right, and the header has their local root.
fn records_valid(arena: &[u8], count: u32) -> bool
    requires { (length arena.now ≡ arena_bytes) × (count ≡ count_in arena.now) × (count ≤ 1024) }
    ensures { result ≡ records_valid arena.now }
{
    let kinds = path::rows::kinds();
    let pairs = path::rows::pairs();
    let mut path_bytes: usize = 0;
    let mut root: u32 = 0;
    for n in 0..count {
        let length = arena::record_length(arena, n) as usize;
        let before = Before {
            count: n,
            path_bytes: path_bytes,
            has_root: root != 0,
            culled_allowed: true,
        };
        if !record_valid(&kinds, &pairs, arena, before, length) {
            return false;
        }
        path_bytes += length - arena::offsets::PATH;
        root = root_with(n, arena::arc(arena, n), root);
    }
    root_valid(arena, count, root)
}

// Whether each entry of the order is a node that no entry before it is: then each node stands there
// once.
fn entries_valid(arena: &[u8], count: u32) -> bool
    requires { (length arena.now ≡ arena_bytes) × (count ≡ count_in arena.now) × (count ≤ 1024) }
    ensures { result ≡ entries_valid arena.now }
{
    let mut seen = [0u8; 1024];
    for k in 0..count {
        let entry = arena::order_entry(arena, k);
        if entry >= count {
            return false;
        }
        let at = entry as usize;
        if seen[at] != 0 {
            return false;
        }
        seen[at] = 1;
    }
    true
}

// Whether the order is right, where it is marked.
fn order_valid(arena: &[u8], count: u32) -> bool
    requires { (length arena.now ≡ arena_bytes) × (count ≡ count_in arena.now) × (count ≤ 1024) }
    ensures { result ≡ order_valid arena.now }
{
    if arena::ordered(arena) == 0 {
        return true;
    }
    entries_valid(arena, count)
}

// Whether the arena holds a graph (question 2). The tests stand in an order in which each may lean
// on those before it.
pub fn is_graph(arena: &[u8]) -> bool
    requires { length arena.now ≡ arena_bytes }
    ensures { result ≡ holds_graph arena.now }
{
    let count = arena::count(arena);
    if count > arena::MAX_NODES {
        return false;
    }
    if !state_valid(arena) {
        return false;
    }
    if !records_valid(arena, count) {
        return false;
    }
    if !child_lists::are_valid(arena, count) {
        return false;
    }
    order_valid(arena, count)
}
