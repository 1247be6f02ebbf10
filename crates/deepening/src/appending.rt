// The last name of a child's path appended to every site of a graph. It never refuses: `paths_fit`
// answers question 7, and `CanDeepen` says that a call's questions passed. specs/Deepened.antt says
// what each part stores.
ghost use Rattle.std.specs.Prelude.{◌≡◌, length};
ghost use Rattle.model.specs.Arena.{arena_bytes, decode, encode};
ghost use Rattle.model.specs.ArenaCalls.{ValidArena};
ghost use Rattle.model.specs.Calls.{paths_fit};
ghost use Rattle.model.specs.Deepening.{deepen};
ghost use Rattle.deepening.specs.Deepened.{CanDeepen, order_kept};

// Whether no path passes 255 bytes with the name appended, and all together 32,768 (question 7).
pub fn paths_fit(arena: &[u8], name: &[u8]) -> bool
    requires { ValidArena arena.now }
    ensures { result ≡ paths_fit (deepen name.now (decode arena.now)) }
{
    let count = arena::count(arena);
    let mut sum: usize = 0;
    for n in 0..count {
        let end = path::join::joint(arena::path(arena, n)) + name.len();
        if 255 < end {
            return false;
        }
        sum += end;
    }
    sum <= arena::MAX_PATH_BYTES
}

// Whether an order is kept, which it is where the graph is finalized.
pub(crate) fn keeps_order(arena: &[u8]) -> bool
    requires { length arena.now ≡ arena_bytes }
    ensures { result ≡ order_kept arena.now }
{
    if arena::ordered(arena) != 1 {
        return false;
    }
    arena::finalized(arena) == 1
}

// Appends the name to every site. A finalized graph stays so and keeps its order; else the mark
// "ordered" is cleared.
pub fn append_name_to_all_sites(arena: &mut [u8], name: &[u8])
    requires { CanDeepen arena.old name.now }
    ensures { arena.new ≡ encode (deepen name.now (decode arena.old))
        arena.old }
{
    let count = arena::count(arena);
    let ordered = keeps_order(arena);
    let finalized = arena::finalized(arena) == 1;
    let shallow = arena::shallow(arena) == 1;
    arena::write_state(arena, ordered, finalized, shallow);
    crate::sites::deepen_sites(arena, count, name);
}

// Stores the graph with the name appended to every site into a second arena, whatever that holds;
// the bytes there that the graph does not use stay.
pub fn seed(from: &[u8], into: &mut [u8], name: &[u8])
    requires { CanDeepen from.now name.now × (length into.old ≡ arena_bytes) }
    ensures { into.new ≡ encode (deepen name.now (decode from.now))
        into.old }
{
    let count = arena::count(from);
    crate::seeding::seed_header(from, into, count);
    crate::seeding::seed_slots(from, into, count, name);
    if arena::finalized(from) == 1 {
        crate::seeding::seed_order(from, into, count);
    }
}
