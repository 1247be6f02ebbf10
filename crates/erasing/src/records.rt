// Moving the records of the nodes that erasing keeps, in place: each, with the new numbers of its
// parent and its origin, to its new slot, which is not higher. New numbers are found before
// (lists.rt). It never refuses and stores no link, order or header: that the arena holds a graph
// and that the set passes question 11 its callers prove. specs/EraseRecords.antt says what is
// stored.
ghost use Rattle.std.specs.Prelude.{◌≡◌, ◌≤◌, length};
ghost use Rattle.model.specs.Arena.{decode};
ghost use Rattle.model.specs.Erasing.{stays, new_number, erase as erased};
ghost use Rattle.arena.specs.Slot.{HasSlot, HasPath};
ghost use Rattle.erasing.specs.EraseRecords.{NumberResult, new_link_in, renumbered_in, record_moved, sites_stored};

use arena::Node;
use model::NodeId;

// The new number of a parent, an origin or the local root; what is no node's number, as node 0's
// parent, stays.
pub fn new_link(numbers: &[u32], count: u32, link: u32) -> u32
    requires { (length numbers.now ≡ 1024) × (count ≤ 1024) }
    ensures { result ≡ new_link_in numbers.now count link }
{
    if link < count {
        return numbers[link as usize];
    }
    link
}

// The record with the new numbers of its parent and its origin.
fn renumber(mut node: Node, numbers: &[u32], count: u32) -> Node
    requires { (length numbers.now ≡ 1024) × (count ≤ 1024) }
    ensures { result ≡ renumbered_in numbers.now count node }
{
    let parent = NodeId(new_link(numbers, count, node.parent.0));
    let origin = NodeId(new_link(numbers, count, node.origin.0));
    node.parent = parent;
    node.origin = origin;
    node
}

// Moves the record of node `from` to slot `to`. `path` is room for its path.
fn move_record(arena: &mut [u8], numbers: &[u32], count: u32, from: u32, to: u32, path: &mut [u8])
    requires has_path { HasPath arena.old from × HasSlot arena.old to × (length path.old ≡ 255) }
    requires numbers_len { (length numbers.now ≡ 1024) × (count ≤ 1024) }
    ensures { arena.new ≡ record_moved numbers.now count from to arena.old }
{
    let node = renumber(arena::load_node(arena, from), numbers, count);
    let length = arena::path(arena, from).len();
    big_endian::write_bytes(path, 0, arena::path(arena, from));
    arena::store_record(arena, to, node, &path[..length]);
}

// Moves the record of each kept node to its new slot, which is not higher.
pub fn move_records(arena: &mut [u8], set: &[u8], numbers: &[u32], count: u32)
    requires { NumberResult arena.old set.now count numbers.now }
    ensures { arena.new ≡ sites_stored (erased set.now (decode arena.old))
        (new_number (stays set.now) count) arena.old }
{
    let mut path: [u8; 255] = [0; 255];
    for from in 0..count {
        if set[from as usize] == 0 {
            move_record(
                arena,
                numbers,
                count,
                from,
                numbers[from as usize],
                &mut path,
            );
        }
    }
}
