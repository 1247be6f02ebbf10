// A node that is to be added, `NodeDesc`: what is missing of it, questions 4 to 7 of document 01,
// and its record. No byte is written, and no arena checked: the caller has put the questions before
// these. specs/Describing.antt ties `NodeDesc` to that of model/specs/Calls.antt and has the
// record.
ghost use Rattle.std.specs.Prelude.{◌≡◌, ◌≤◌, ◌<◌};
ghost use Rattle.model.specs.Answers.{node_option};
ghost use Rattle.model.specs.Arena.{count_in, decode};
ghost use Rattle.model.specs.ArenaCalls.{ValidArena};
ghost use Rattle.model.specs.Calls.{given_or};
ghost use Rattle.model.specs.Refusals.{path_bytes};
ghost use Rattle.nodes.specs.Describing.{desc_of, DescChecked, HasSlotIn, prims_read, added_record};

use model::{NodeId, Refusal};
use validate::{Before, RecordNumbers};

// A node to be added. Without a parent it is a root site. Its path is handed over beside it.
#[derive(Clone, Copy)]
pub struct NodeDesc {
    pub arc: u8,
    pub flags: u8,
    pub stack: u32,
    pub layer: u32,
    pub parent: Option<NodeId>,
    pub origin: Option<NodeId>,
    pub depth: Option<u16>,
    pub sibling: u16,
    pub restriction: u16,
    pub spec_from: u16,
    pub has_specs: u8,
}

// The node's number, or `missing` where there is none.
fn node_or(node: Option<NodeId>, missing: u32) -> u32
    ensures { result ≡ given_or (node_option node) missing }
{
    match node {
        Some(given) => given.0,
        None => missing,
    }
}

// The depth that is given, or `missing`.
fn depth_or(depth: Option<u16>, missing: u16) -> u16
    ensures { result ≡ given_or depth missing }
{
    match depth {
        Some(given) => given,
        None => missing,
    }
}

// How many bytes the paths of `count` nodes have together.
fn path_bytes(arena: &[u8], count: u32) -> usize
    requires { ValidArena arena.now × (count ≡ count_in arena.now) }
    ensures { (result ≡ path_bytes (decode arena.now).nodes) × (result ≤ 32768) }
{
    let mut sum: usize = 0;
    for n in 0..count {
        sum += (arena::record_length(arena, n) as usize) - arena::offsets::PATH;
    }
    sum
}

// Questions 4 to 7 of a node that is to be added to a graph of `count` nodes: its prim count where
// all pass. A culled node may not be added.
pub fn check_desc(arena: &[u8], count: u32, desc: NodeDesc, path: &[u8]) -> Result<u8, Refusal>
    requires { ValidArena arena.now × (count ≡ count_in arena.now) × (0 < count) }
    ensures { DescChecked (decode arena.now) (desc_of desc path.now) result }
{
    let before = Before {
        count: count,
        path_bytes: path_bytes(arena, count),
        has_root: arena::local_root(arena) != 0,
        culled_allowed: false,
    };
    let above = desc.parent;
    let from = desc.origin;
    let parent = node_or(above, 0);
    let numbers = RecordNumbers {
        arc: desc.arc,
        flags: desc.flags,
        parent: parent,
        origin: node_or(from, parent),
        has_specs: desc.has_specs,
    };
    validate::check_record(before, numbers, path, path::prim_count(path))
}

// The prim count of the parent's path, or of the node's own for a root site.
fn default_depth(arena: &[u8], parent: Option<NodeId>, prims: u8) -> u16
    requires valid_arena { ValidArena arena.now }
    requires has_slot_in { HasSlotIn parent }
    ensures { result ≡ prims_read arena.now parent prims }
{
    match parent {
        Some(given) => arena::prim_count(arena, given.0) as u16,
        None => prims as u16,
    }
}

// The record of the node, with what was missing put in. It has no links yet.
pub fn added_record(arena: &[u8], desc: NodeDesc, prims: u8, path_length: usize) -> arena::Node
    requires valid_arena { ValidArena arena.now }
    requires has_slot_in { HasSlotIn desc.parent }
    requires path_length_bound { path_length ≤ 255 }
    ensures { result ≡ added_record arena.now desc prims path_length }
{
    let above = desc.parent;
    let from = desc.origin;
    let depth = desc.depth;
    let parent = node_or(above, 0);
    let default = default_depth(arena, above, prims);
    arena::Node {
        first_child: NodeId::INVALID,
        last_child: NodeId::INVALID,
        next_sibling: NodeId::INVALID,
        prim_count: prims,
        record_length: (arena::offsets::PATH + path_length) as u16,
        arc: desc.arc,
        flags: desc.flags,
        stack: desc.stack,
        layer: desc.layer,
        parent: NodeId(parent),
        origin: NodeId(node_or(from, parent)),
        depth: depth_or(depth, default),
        sibling: desc.sibling,
        restriction: desc.restriction,
        spec_from: desc.spec_from,
        has_specs: desc.has_specs,
    }
}
