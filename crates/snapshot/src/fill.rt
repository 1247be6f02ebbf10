// The reader's last pass: an arena is filled with the nodes of a snapshot that passed every
// question. It decides nothing.
ghost use Rattle.std.specs.Prelude.{◌≡◌, length};
ghost use Rattle.model.specs.Graph.{empty_graph, with_node};
ghost use Rattle.model.specs.Snapshot.{read_record};
ghost use Rattle.model.specs.Arena.{arena_bytes, decode, encode};
ghost use Rattle.model.specs.Calls.{read_into};
ghost use Rattle.snapshot.specs.Filling.{CanAppendRecord, CanFill};

use crate::record;
use arena::offsets;

// Appends the node of a record, which misses no field, as number n.
fn append_record(arena: &mut [u8], n: u32, body: &[u8], prim_count: u8)
    requires { CanAppendRecord arena.old n body.now prim_count }
    ensures { arena.new ≡ encode
        (with_node (decode arena.old) (read_record body.now)) arena.old }
{
    let Some(node) = record::read_node(body, prim_count) else {
        return;
    };
    child_lists::append_node(arena, n, node, &body[offsets::PATH..]);
}

// Makes the arena hold the empty graph, whatever it held.
fn clear(arena: &mut [u8])
    requires { length arena.old ≡ arena_bytes }
    ensures { arena.new ≡ encode empty_graph arena.old }
{
    arena::write_count(arena, 0);
    arena::write_state(arena, false, false, false);
}

// Fills the arena with the nodes of the snapshot, whose prim counts are in `prims`.
pub(crate) fn fill(arena: &mut [u8], bytes: &[u8], count: u32, prims: &[u8])
    requires { CanFill arena.old bytes.now count prims.now }
    ensures { arena.new ≡ encode (read_into bytes.now empty_graph).graph
        arena.old }
{
    clear(arena);
    let mut at: usize = 7;
    for n in 0..count {
        let record = record::record_at(bytes, at);
        append_record(arena, n, record, prims[n as usize]);
        at += 2 + record.len();
    }
}
