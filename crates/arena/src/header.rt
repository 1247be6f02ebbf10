// The header: the count of nodes, the three marks and the local root.
ghost use Rattle.std.specs.Prelude.{◌≡◌, [], ◌∷◌, ◌+◌, ◌≤◌, length};
ghost use Rattle.model.specs.Arena.{arena_bytes, count_in, ordered_in, finalized_in, shallow_in, local_root_in};
ghost use Rattle.model.specs.Bytes.{stored};
ghost use Rattle.model.specs.Lists.{bit};
ghost use Rattle.arena.specs.Header.{count_stored, marks_stored, local_root_stored};

// How many nodes there are.
pub fn count(arena: &[u8]) -> u32
    requires { length arena.now ≡ arena_bytes }
    ensures { result ≡ count_in arena.now }
{
    big_endian::read_u32(arena, 0)
}

// The byte of the mark "ordered", 1 where the order counts.
pub fn ordered(arena: &[u8]) -> u8
    requires { length arena.now ≡ arena_bytes }
    ensures { result ≡ ordered_in arena.now }
{
    big_endian::read_u8(arena, 4)
}

// The byte of the mark "finalized".
pub fn finalized(arena: &[u8]) -> u8
    requires { length arena.now ≡ arena_bytes }
    ensures { result ≡ finalized_in arena.now }
{
    big_endian::read_u8(arena, 5)
}

// The byte of the mark "shallow".
pub fn shallow(arena: &[u8]) -> u8
    requires { length arena.now ≡ arena_bytes }
    ensures { result ≡ shallow_in arena.now }
{
    big_endian::read_u8(arena, 6)
}

// The number of the local root, 0 for none.
pub fn local_root(arena: &[u8]) -> u32
    requires { length arena.now ≡ arena_bytes }
    ensures { result ≡ local_root_in arena.now }
{
    big_endian::read_u32(arena, 8)
}

// Stores how many nodes there are.
pub fn write_count(arena: &mut [u8], count: u32)
    requires { length arena.old ≡ arena_bytes }
    ensures { arena.new ≡ count_stored count arena.old }
{
    big_endian::write_u32(arena, 0, count);
}

// Stores a mark, 1 or 0.
fn write_state_byte(arena: &mut [u8], at: usize, set: bool)
    requires { at + 1 ≤ length arena.old }
    ensures { arena.new ≡ stored at (bit set ∷ []) arena.old }
{
    big_endian::write_u8(arena, at, set as u8);
}

// Stores the three marks.
pub fn write_state(arena: &mut [u8], ordered: bool, finalized: bool, shallow: bool)
    requires { length arena.old ≡ arena_bytes }
    ensures { arena.new ≡ marks_stored ordered finalized shallow arena.old }
{
    write_state_byte(arena, 4, ordered);
    write_state_byte(arena, 5, finalized);
    write_state_byte(arena, 6, shallow);
}

// Stores the number of the local root, 0 for none.
pub fn write_local_root(arena: &mut [u8], root: u32)
    requires { length arena.old ≡ arena_bytes }
    ensures { arena.new ≡ local_root_stored root arena.old }
{
    big_endian::write_u32(arena, 8, root);
}
