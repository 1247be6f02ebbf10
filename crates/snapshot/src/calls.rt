// The calls that take or give a snapshot. None has a `requires`: each puts its questions, the size
// of each buffer first, and is refused by the first whose answer is no; then every lent byte is as
// it was.
// specs/Snapshots.antt says what writing answers and leaves; reading is `read_into` of
// model/specs/Calls.antt.
ghost use Rattle.model.specs.ArenaCalls.{into_arena, Wrote};
ghost use Rattle.model.specs.Calls.{read_into};
ghost use Rattle.model.specs.Graph.{empty_graph};
ghost use Rattle.snapshot.specs.Snapshots.{SnapshotWritten};

use model::Refusal;

// Reads a snapshot into the arena, whatever it held, and answers how many nodes it has: child lists
// in node order, not ordered, shallow found anew. Refused 1, 12, then 4 to 7 record by record.
pub fn read_snapshot(arena: &mut [u8], bytes: &[u8]) -> Result<u32, Refusal>
    ensures { Wrote (into_arena (read_into bytes.now empty_graph) arena.old)
        arena.old result arena.new }
{
    if arena.len() != arena::ARENA_BYTES {
        return Err(Refusal::Size);
    }
    crate::reader::read_snapshot(arena, bytes)
}

// Writes the graph as a snapshot to the front of `out`, which has 65,536 bytes, and answers how
// many it took. Refused 1 or 2.
pub fn write_snapshot(arena: &[u8], out: &mut [u8]) -> Result<u32, Refusal>
    ensures { SnapshotWritten arena.now out.old result out.new }
{
    if out.len() != arena::SNAPSHOT_BYTES {
        return Err(Refusal::Size);
    }
    validate::ask_graph(arena)?;
    Ok(crate::writer::write_snapshot(arena, out))
}
