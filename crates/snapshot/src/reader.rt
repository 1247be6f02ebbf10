// The reader: everything is asked before anything is written.
ghost use Rattle.std.specs.Prelude.{◌≡◌, length};
ghost use Rattle.model.specs.Graph.{empty_graph};
ghost use Rattle.model.specs.Calls.{read_into};
ghost use Rattle.model.specs.Arena.{arena_bytes};
ghost use Rattle.model.specs.ArenaCalls.{Wrote};

use crate::fill;
use model::Refusal;

// Reads a snapshot into the arena, whatever it held, and answers how many nodes it has. Refused,
// the arena keeps every byte.
pub fn read_snapshot(arena: &mut [u8], bytes: &[u8]) -> Result<u32, Refusal>
    requires { length arena.old ≡ arena_bytes }
    ensures { Wrote (read_into bytes.now empty_graph) arena.old result arena.new }
{
    let count = crate::checks::check_lengths(bytes)?;
    let mut prims = [0u8; 1024];
    crate::checks::check_records(bytes, count, &mut prims)?;
    fill::fill(arena, bytes, count, &prims);
    Ok(count)
}
