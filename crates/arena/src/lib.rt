// The node arena (document 01: the room) in lent bytes: a header of 64 bytes, then 1,024 slots of
// 320. The only crate that knows an offset. It reads and writes what lies where, and decides
// nothing: it never refuses, and never asks whether the bytes hold a graph, so a reader answers on
// any bytes. Each function requires that its place is within, which its callers prove. A node's
// number is a plain u32, as parameter and as a single field; 4,294,967,295 is no node.
// The layout is in model/specs/Arena.antt; what is read and stored has its names in specs/Slot.antt
// and specs/Header.antt; proofs/SlotLaws.antt ties the fields to the node that the bytes hold.
#![tactic(auto)]

pub mod arcs;
mod header;
pub mod offsets;
mod sizes;
mod slot;

ghost use Rattle.std.specs.Prelude.{◌≡◌, ◌+◌, ◌≤◌, length};
ghost use Rattle.model.specs.Bytes.{stored};
ghost use Rattle.arena.specs.Slot.{HasSlot, Loaded, with_first_child, with_last_child, with_next_sibling, links_stored};
ghost use Rattle.arena.specs.Slot.{record_stored, head_bytes, id_bytes, depth_bytes};

pub use header::{
    count, finalized, local_root, ordered, shallow, write_count, write_local_root, write_state,
};
use model::NodeId;
pub use sizes::{
    ARENA_BYTES, INERT, LEAST_RECORD_BYTES, MAX_NODES, MAX_PATH_BYTES, MOST_RECORD_BYTES, NO_NODE,
    ORDER_BYTES, PATH_BYTES, SET_BYTES, SNAPSHOT_BYTES,
};
pub use slot::{
    arc, depth, first_child, flags, has_specs, last_child, layer, next_sibling, order_entry,
    origin, parent, path, prim_count, record, record_length, restriction, sibling, spec_from,
    stack, write_flags, write_order_entry, write_restriction, write_specs,
};

// A node's record by value: its links, the prim count of its path, the record's length and the
// record's numbers. Its path stays in the arena (`path`).
#[derive(Clone, Copy)]
pub struct Node {
    pub first_child: NodeId,
    pub last_child: NodeId,
    pub next_sibling: NodeId,
    pub prim_count: u8,
    pub record_length: u16,
    pub arc: u8,
    pub flags: u8,
    pub stack: u32,
    pub layer: u32,
    pub parent: NodeId,
    pub origin: NodeId,
    pub depth: u16,
    pub sibling: u16,
    pub restriction: u16,
    pub spec_from: u16,
    pub has_specs: u8,
}

impl Node {
    // The record with another first child.
    pub fn with_first_child(mut self, id: NodeId) -> Node
        ensures { result ≡ with_first_child id self }
    {
        self.first_child = id;
        self
    }

    // The record with another last child.
    pub fn with_last_child(mut self, id: NodeId) -> Node
        ensures { result ≡ with_last_child id self }
    {
        self.last_child = id;
        self
    }

    // The record with another next sibling.
    pub fn with_next_sibling(mut self, id: NodeId) -> Node
        ensures { result ≡ with_next_sibling id self }
    {
        self.next_sibling = id;
        self
    }
}

// The record of node n, whatever its bytes are.
pub fn load_node(arena: &[u8], n: u32) -> Node
    requires { HasSlot arena.now n }
    ensures { Loaded arena.now n result }
{
    Node {
        first_child: NodeId(slot::first_child(arena, n)),
        last_child: NodeId(slot::last_child(arena, n)),
        next_sibling: NodeId(slot::next_sibling(arena, n)),
        prim_count: slot::prim_count(arena, n),
        record_length: slot::record_length(arena, n),
        arc: slot::arc(arena, n),
        flags: slot::flags(arena, n),
        stack: slot::stack(arena, n),
        layer: slot::layer(arena, n),
        parent: NodeId(slot::parent(arena, n)),
        origin: NodeId(slot::origin(arena, n)),
        depth: slot::depth(arena, n),
        sibling: slot::sibling(arena, n),
        restriction: slot::restriction(arena, n),
        spec_from: slot::spec_from(arena, n),
        has_specs: slot::has_specs(arena, n),
    }
}

// Stores the three links of node n; the rest of its slot stays.
pub fn store_links(arena: &mut [u8], n: u32, node: Node)
    requires { HasSlot arena.old n }
    ensures { arena.new ≡ links_stored n node arena.old }
{
    let at = slot::HEADER + (n as usize) * slot::SLOT;
    big_endian::write_u32(arena, at, node.first_child.0);
    big_endian::write_u32(arena, at + 4, node.last_child.0);
    big_endian::write_u32(arena, at + 8, node.next_sibling.0);
}

// Stores the prim count, and the record's length, arc and flags, in the slot at `at`. The prim
// count is an argument of its own, since that it is a byte is known of a number, not of a field.
fn store_head(arena: &mut [u8], at: usize, prim_count: u8, node: Node)
    requires { at + 320 ≤ length arena.old }
    ensures { arena.new ≡ stored (at + 16) (head_bytes prim_count node) arena.old }
{
    big_endian::write_u8(arena, at + 16, prim_count);
    big_endian::write_u16(arena, at + 17, node.record_length);
    big_endian::write_u8(arena, at + (offsets::RECORD + offsets::ARC), node.arc);
    big_endian::write_u8(arena, at + (offsets::RECORD + offsets::FLAGS), node.flags);
}

// Stores stack, layer, parent and origin in the slot at `at`.
fn store_ids(arena: &mut [u8], at: usize, node: Node)
    requires { at + 320 ≤ length arena.old }
    ensures { arena.new ≡ stored (at + 21) (id_bytes node) arena.old }
{
    big_endian::write_u32(arena, at + (offsets::RECORD + offsets::STACK), node.stack);
    big_endian::write_u32(arena, at + (offsets::RECORD + offsets::LAYER), node.layer);
    big_endian::write_u32(
        arena,
        at + (offsets::RECORD + offsets::PARENT),
        node.parent.0,
    );
    big_endian::write_u32(
        arena,
        at + (offsets::RECORD + offsets::ORIGIN),
        node.origin.0,
    );
}

// Stores the four numbers of 16 bits in the slot at `at`.
fn store_depths(arena: &mut [u8], at: usize, node: Node)
    requires { at + 320 ≤ length arena.old }
    ensures { arena.new ≡ stored (at + 37) (depth_bytes node) arena.old }
{
    big_endian::write_u16(arena, at + (offsets::RECORD + offsets::DEPTH), node.depth);
    big_endian::write_u16(
        arena,
        at + (offsets::RECORD + offsets::SIBLING),
        node.sibling,
    );
    big_endian::write_u16(
        arena,
        at + (offsets::RECORD + offsets::RESTRICTION),
        node.restriction,
    );
    big_endian::write_u16(
        arena,
        at + (offsets::RECORD + offsets::SPEC_FROM),
        node.spec_from,
    );
}

// Stores the prim count of node n and its record: the length, the numbers and the path, at most 255
// bytes, which the length counts too. Its links and the order entry stay.
pub fn store_record(arena: &mut [u8], n: u32, node: Node, path: &[u8])
    requires has_slot { HasSlot arena.old n }
    requires record_length_value { (node.record_length ≡ 27 + length path.now) × (length path.now ≤ 255) }
    ensures { arena.new ≡ record_stored n node path.now arena.old }
{
    let at = slot::HEADER + (n as usize) * slot::SLOT;
    store_head(arena, at, node.prim_count, node);
    store_ids(arena, at, node);
    store_depths(arena, at, node);
    big_endian::write_u8(
        arena,
        at + (offsets::RECORD + offsets::HAS_SPECS),
        node.has_specs,
    );
    big_endian::write_bytes(arena, at + (offsets::RECORD + offsets::PATH), path);
}
