// The writer: it copies the records of an arena into lent bytes, one after the other, and then
// stores the seven bytes before them. It puts no question and never changes the arena.
// specs/Writing.antt has what it asks of its callers.
ghost use Rattle.std.specs.Prelude.{◌≡◌, ◌+◌, ◌-◌, length};
ghost use Rattle.model.specs.Arena.{decode};
ghost use Rattle.model.specs.Bytes.{stored};
ghost use Rattle.model.specs.Snapshot.{records_bytes, write_snapshot};
ghost use Rattle.snapshot.specs.Writing.{CanWrite, front_bytes};

// Copies the records behind the place of the front, and answers where they end.
fn write_records(arena: &[u8], out: &mut [u8]) -> usize
    requires { CanWrite arena.now out.old }
    ensures value { result ≡ 7 + length (records_bytes (decode arena.now).nodes) }
    ensures out_after { out.new ≡ stored 7 (records_bytes (decode arena.now).nodes)
        out.old }
{
    let count = arena::count(arena);
    let mut at: usize = 7;
    for n in 0..count {
        let record = arena::record(arena, n);
        big_endian::write_bytes(out, at, record);
        at += record.len();
    }
    at
}

// Stores the front: how many bytes follow its first four, the version and the count.
fn write_front(out: &mut [u8], following: u32, count: u16)
    requires { length out.old ≡ 65536 }
    ensures { out.new ≡ stored 0 (front_bytes following count) out.old }
{
    big_endian::write_u32(out, 0, following);
    big_endian::write_u8(out, 4, 1);
    big_endian::write_u16(out, 5, count);
}

// Writes the graph that the arena holds to the front of `out` and answers how many bytes it took.
pub fn write_snapshot(arena: &[u8], out: &mut [u8]) -> u32
    requires { CanWrite arena.now out.old }
    ensures value { result ≡ length (write_snapshot (decode arena.now)) }
    ensures out_after { out.new ≡ stored 0 (write_snapshot (decode arena.now)) out.old }
{
    let end = write_records(arena, out) as u32;
    write_front(out, end - 4, arena::count(arena) as u16);
    end
}
