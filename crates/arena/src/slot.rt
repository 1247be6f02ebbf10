// A slot's fields, one load or store each, and the path. The record's fields are read where they
// lie, whatever length the record says it has.
ghost use Rattle.std.specs.Prelude.{◌≡◌, ◌+◌, ◌≤◌, take, drop};
ghost use Rattle.model.specs.Arena.{slot_at, first_child_in, last_child_in, next_sibling_in, order_entry_in, prim_count_in};
ghost use Rattle.model.specs.Arena.{record_length_in, node_in};
ghost use Rattle.model.specs.Snapshot.{field};
ghost use Rattle.arena.specs.Slot.{HasSlot, HasPath, arc_in, flags_in, stack_in, layer_in, parent_in, origin_in};
ghost use Rattle.arena.specs.Slot.{depth_in, sibling_in, restriction_in, spec_from_in, has_specs_in, order_entry_stored};
ghost use Rattle.arena.specs.Slot.{flags_stored, restriction_stored, specs_stored};

use crate::offsets;

// How many bytes the header has.
pub(crate) const HEADER: usize = 64;

// How many bytes a slot has.
pub(crate) const SLOT: usize = 320;

// The byte at an offset of slot n.
fn read_u8(arena: &[u8], n: u32, offset: usize) -> u8
    requires { HasSlot arena.now n × (offset + 1 ≤ 320) }
    ensures { result ≡ field (slot_at n + offset) 1 arena.now }
{
    big_endian::read_u8(arena, HEADER + (n as usize) * SLOT + offset)
}

// The number in the two bytes from an offset of slot n on.
fn read_u16(arena: &[u8], n: u32, offset: usize) -> u16
    requires { HasSlot arena.now n × (offset + 2 ≤ 320) }
    ensures { result ≡ field (slot_at n + offset) 2 arena.now }
{
    big_endian::read_u16(arena, HEADER + (n as usize) * SLOT + offset)
}

// The number in the four bytes from an offset of slot n on.
fn read_u32(arena: &[u8], n: u32, offset: usize) -> u32
    requires { HasSlot arena.now n × (offset + 4 ≤ 320) }
    ensures { result ≡ field (slot_at n + offset) 4 arena.now }
{
    big_endian::read_u32(arena, HEADER + (n as usize) * SLOT + offset)
}

// The first child of node n; 4,294,967,295 for none, as in each link.
pub fn first_child(arena: &[u8], n: u32) -> u32
    requires { HasSlot arena.now n }
    ensures { result ≡ first_child_in arena.now n }
{
    big_endian::read_u32(arena, HEADER + (n as usize) * SLOT)
}

// The last child of node n.
pub fn last_child(arena: &[u8], n: u32) -> u32
    requires { HasSlot arena.now n }
    ensures { result ≡ last_child_in arena.now n }
{
    read_u32(arena, n, 4)
}

// The sibling after node n.
pub fn next_sibling(arena: &[u8], n: u32) -> u32
    requires { HasSlot arena.now n }
    ensures { result ≡ next_sibling_in arena.now n }
{
    read_u32(arena, n, 8)
}

// Entry n of the order.
pub fn order_entry(arena: &[u8], n: u32) -> u32
    requires { HasSlot arena.now n }
    ensures { result ≡ order_entry_in arena.now n }
{
    read_u32(arena, n, 12)
}

// The prim count of node n's path.
pub fn prim_count(arena: &[u8], n: u32) -> u8
    requires { HasSlot arena.now n }
    ensures { result ≡ prim_count_in arena.now n }
{
    read_u8(arena, n, 16)
}

// The length of node n's record: its numbers' 27 bytes and its path.
pub fn record_length(arena: &[u8], n: u32) -> u16
    requires { HasSlot arena.now n }
    ensures { result ≡ record_length_in arena.now n }
{
    read_u16(arena, n, 17)
}

// The arc of node n.
pub fn arc(arena: &[u8], n: u32) -> u8
    requires { HasSlot arena.now n }
    ensures { result ≡ arc_in arena.now n }
{
    read_u8(arena, n, offsets::RECORD + offsets::ARC)
}

// The flags of node n.
pub fn flags(arena: &[u8], n: u32) -> u8
    requires { HasSlot arena.now n }
    ensures { result ≡ flags_in arena.now n }
{
    read_u8(arena, n, offsets::RECORD + offsets::FLAGS)
}

// The stack of node n's site.
pub fn stack(arena: &[u8], n: u32) -> u32
    requires { HasSlot arena.now n }
    ensures { result ≡ stack_in arena.now n }
{
    read_u32(arena, n, offsets::RECORD + offsets::STACK)
}

// The layer of node n.
pub fn layer(arena: &[u8], n: u32) -> u32
    requires { HasSlot arena.now n }
    ensures { result ≡ layer_in arena.now n }
{
    read_u32(arena, n, offsets::RECORD + offsets::LAYER)
}

// The parent of node n.
pub fn parent(arena: &[u8], n: u32) -> u32
    requires { HasSlot arena.now n }
    ensures { result ≡ parent_in arena.now n }
{
    read_u32(arena, n, offsets::RECORD + offsets::PARENT)
}

// The origin of node n.
pub fn origin(arena: &[u8], n: u32) -> u32
    requires { HasSlot arena.now n }
    ensures { result ≡ origin_in arena.now n }
{
    read_u32(arena, n, offsets::RECORD + offsets::ORIGIN)
}

// The namespace depth of node n.
pub fn depth(arena: &[u8], n: u32) -> u16
    requires { HasSlot arena.now n }
    ensures { result ≡ depth_in arena.now n }
{
    read_u16(arena, n, offsets::RECORD + offsets::DEPTH)
}

// The sibling number of node n.
pub fn sibling(arena: &[u8], n: u32) -> u16
    requires { HasSlot arena.now n }
    ensures { result ≡ sibling_in arena.now n }
{
    read_u16(arena, n, offsets::RECORD + offsets::SIBLING)
}

// The restriction depth of node n.
pub fn restriction(arena: &[u8], n: u32) -> u16
    requires { HasSlot arena.now n }
    ensures { result ≡ restriction_in arena.now n }
{
    read_u16(arena, n, offsets::RECORD + offsets::RESTRICTION)
}

// The `spec_from` of node n.
pub fn spec_from(arena: &[u8], n: u32) -> u16
    requires { HasSlot arena.now n }
    ensures { result ≡ spec_from_in arena.now n }
{
    read_u16(arena, n, offsets::RECORD + offsets::SPEC_FROM)
}

// Whether node n has specs: 1 or 0.
pub fn has_specs(arena: &[u8], n: u32) -> u8
    requires { HasSlot arena.now n }
    ensures { result ≡ has_specs_in arena.now n }
{
    read_u8(arena, n, offsets::RECORD + offsets::HAS_SPECS)
}

// The path of node n, a part of the arena: what follows the numbers of its record.
pub fn path(arena: &[u8], n: u32) -> &[u8]
    requires { HasPath arena.now n }
    ensures { result.now ≡ (node_in arena.now n).path }
{
    let body = HEADER + (n as usize) * SLOT + offsets::RECORD;
    let start = body + offsets::PATH;
    let end = body + (record_length(arena, n) as usize);
    &arena[start..end]
}

// The record of node n as a snapshot has it, its length first: a part of the arena.
pub fn record(arena: &[u8], n: u32) -> &[u8]
    requires { HasPath arena.now n }
    ensures { result.now ≡ take (2 + record_length_in arena.now n)
        (drop (slot_at n + 17) arena.now) }
{
    let start = HEADER + (n as usize) * SLOT + 17;
    let end = start + 2 + (record_length(arena, n) as usize);
    &arena[start..end]
}

// Stores entry n of the order.
pub fn write_order_entry(arena: &mut [u8], n: u32, entry: u32)
    requires { HasSlot arena.old n }
    ensures { arena.new ≡ order_entry_stored n entry arena.old }
{
    big_endian::write_u32(arena, HEADER + (n as usize) * SLOT + 12, entry);
}

// Stores the flags of node n.
pub fn write_flags(arena: &mut [u8], n: u32, flags: u8)
    requires { HasSlot arena.old n }
    ensures { arena.new ≡ flags_stored n flags arena.old }
{
    big_endian::write_u8(
        arena,
        HEADER + (n as usize) * SLOT + (offsets::RECORD + offsets::FLAGS),
        flags,
    );
}

// Stores the restriction depth of node n.
pub fn write_restriction(arena: &mut [u8], n: u32, depth: u16)
    requires { HasSlot arena.old n }
    ensures { arena.new ≡ restriction_stored n depth arena.old }
{
    big_endian::write_u16(
        arena,
        HEADER + (n as usize) * SLOT + (offsets::RECORD + offsets::RESTRICTION),
        depth,
    );
}

// Stores the `spec_from` of node n and whether it has specs, 1 or 0.
pub fn write_specs(arena: &mut [u8], n: u32, spec_from: u16, has_specs: u8)
    requires { HasSlot arena.old n }
    ensures { arena.new ≡ specs_stored n spec_from has_specs arena.old }
{
    let at = HEADER + (n as usize) * SLOT;
    big_endian::write_u16(
        arena,
        at + (offsets::RECORD + offsets::SPEC_FROM),
        spec_from,
    );
    big_endian::write_u8(
        arena,
        at + (offsets::RECORD + offsets::HAS_SPECS),
        has_specs,
    );
}
