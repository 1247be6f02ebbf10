// The buffers that the commands lend, and what is gathered in one.
ghost use Rattle.std.specs.Prelude.{◌≡◌, length};
ghost use Rattle.model.specs.Arena.{arena_bytes};
ghost use Rattle.command_io.specs.Buffers.{Appended};

use arena::ARENA_BYTES;

// An arena of zeros, which holds the empty graph, or room for any listing. The contract gives only
// a length, so that no proof holds the bytes.
pub fn zeros() -> [u8; ARENA_BYTES]
    ensures { arena_bytes ≡ length result }
{
    [0; ARENA_BYTES]
}

// Puts `more` after the first `held` bytes of `line`, and answers how many it then holds. For a
// line without end that is one more than there is room for, whatever follows.
pub fn append(line: &mut [u8], held: usize, more: &[u8]) -> usize
    ensures { Appended line.old held more.now result line.new }
{
    if line.len() < held {
        return held;
    }
    if line.len() - held < more.len() {
        return line.len() + 1;
    }
    big_endian::write_bytes(line, held, more);
    held + more.len()
}
