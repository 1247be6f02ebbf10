// The parts of a second arena that is seeded: its header, its slots and its order.
ghost use Rattle.std.specs.Prelude.{◌≡◌, ◌≤◌, length};
ghost use Rattle.model.specs.Arena.{arena_bytes, order_entry_in, tabulate, order_stored};
ghost use Rattle.arena.specs.Slot.{HasSlot};
ghost use Rattle.deepening.specs.Deepened.{CanJoin, AllJoin, header_seeded, slot_seeded, slots_seeded};

// Stores the count, the marks and the local root. Where the graph is not finalized the mark
// "ordered" is cleared.
pub(crate) fn seed_header(from: &[u8], into: &mut [u8], count: u32)
    requires { (length from.now ≡ arena_bytes) × (length into.old ≡ arena_bytes) }
    ensures { into.new ≡ header_seeded from.now count into.old }
{
    let ordered = crate::appending::keeps_order(from);
    let finalized = arena::finalized(from) == 1;
    let shallow = arena::shallow(from) == 1;
    let root = arena::local_root(from);
    arena::write_count(into, count);
    arena::write_state(into, ordered, finalized, shallow);
    arena::write_local_root(into, root);
}

// Stores the links of node n and its record with the name appended.
fn seed_slot(from: &[u8], into: &mut [u8], n: u32, name: &[u8])
    requires { CanJoin from.now name.now n × HasSlot into.old n }
    ensures { into.new ≡ slot_seeded from.now name.now n into.old }
{
    let mut path: [u8; 255] = [0; 255];
    let node = crate::sites::deepen_record(from, n, name, &mut path);
    let end = (node.record_length as usize) - arena::offsets::PATH;
    arena::store_links(into, n, node);
    arena::store_record(into, n, node, &path[..end]);
}

// Stores the slots of `count` nodes.
pub(crate) fn seed_slots(from: &[u8], into: &mut [u8], count: u32, name: &[u8])
    requires { AllJoin from.now name.now count × (length into.old ≡ arena_bytes) }
    ensures { into.new ≡ slots_seeded from.now name.now count
        into.old }
{
    for n in 0..count {
        seed_slot(from, into, n, name);
    }
}

// Stores the entries of the order.
pub(crate) fn seed_order(from: &[u8], into: &mut [u8], count: u32)
    requires { (length from.now ≡ arena_bytes) × (length into.old ≡ arena_bytes) × (count ≤ 1024) }
    ensures { into.new ≡ order_stored (tabulate (order_entry_in from.now) 0 count) 0
        into.old }
{
    for n in 0..count {
        arena::write_order_entry(into, n, arena::order_entry(from, n));
    }
}
