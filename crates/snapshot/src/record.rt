// A record of a snapshot: where it stands, and its node. A record that is long enough misses no
// field.
ghost use Rattle.std.specs.Prelude.{◌≡◌, ◌+◌, ◌≤◌, length, take, drop};
ghost use Rattle.model.specs.Snapshot.{field};
ghost use Rattle.snapshot.specs.SnapshotReading.{RecordAt};
ghost use Rattle.snapshot.specs.Filling.{NodeTaken};

use crate::fields;
use arena::{Node, offsets};
use model::NodeId;

// The record at `at`, behind its length.
pub(crate) fn record_at(bytes: &[u8], at: usize) -> &[u8]
    requires { RecordAt bytes.now at }
    ensures { result.now ≡ take (field at 2 bytes.now) (drop (at + 2) bytes.now) }
{
    let start = at + 2;
    let end = start + (big_endian::read_u16(bytes, at) as usize);
    &bytes[start..end]
}

// The node of a record, with the prim count of its path and no links.
pub(crate) fn read_node(body: &[u8], prim_count: u8) -> Option<Node>
    requires { (27 ≤ length body.now) × (length body.now ≤ 282) }
    ensures { NodeTaken body.now prim_count result }
{
    Some(Node {
        first_child: NodeId::INVALID,
        last_child: NodeId::INVALID,
        next_sibling: NodeId::INVALID,
        prim_count: prim_count,
        record_length: body.len() as u16,
        arc: fields::take_u8(body, offsets::ARC)?,
        flags: fields::take_u8(body, offsets::FLAGS)?,
        stack: fields::take_u32(body, offsets::STACK)?,
        layer: fields::take_u32(body, offsets::LAYER)?,
        parent: NodeId(fields::take_u32(body, offsets::PARENT)?),
        origin: NodeId(fields::take_u32(body, offsets::ORIGIN)?),
        depth: fields::take_u16(body, offsets::DEPTH)?,
        sibling: fields::take_u16(body, offsets::SIBLING)?,
        restriction: fields::take_u16(body, offsets::RESTRICTION)?,
        spec_from: fields::take_u16(body, offsets::SPEC_FROM)?,
        has_specs: fields::take_u8(body, offsets::HAS_SPECS)?,
    })
}
