// One node more at the end of an arena that holds a graph: the node's own slot, its place at the
// end of its parent's child list, and the header. It decides nothing: its callers have put the
// questions, and `CanAppend` says that they passed. What it leaves is model/specs/Graph.antt's
// `with_node`; specs/Append.antt says what each part stores.
ghost use Rattle.std.specs.Prelude.{◌≡◌, ◌<◌, ◌≤◌, ◌+◌, length};
ghost use Rattle.model.specs.Arena.{arena_bytes, decode, encode};
ghost use Rattle.model.specs.Graph.{with_node};
ghost use Rattle.model.specs.Node.{invalid};
ghost use Rattle.arena.specs.Slot.{HasSlot, node_of, record_stored};
ghost use Rattle.child_lists.specs.Append.{CanAppend, shallow_with, header_stored, three_links, CanLink};
ghost use Rattle.child_lists.specs.Append.{child_linked};

use arena::Node;
use model::NodeId;

// Whether the graph is shallow with this node as number n: where it was, or where the node's depth
// passes its parent's prim count.
fn is_shallow(arena: &[u8], n: u32, parent: u32, depth: u16) -> bool
    requires arena_len { length arena.now ≡ arena_bytes }
    requires parent_bound { 0 < n → parent < 1024 }
    ensures { result ≡ shallow_with n parent depth arena.now }
{
    if arena::shallow(arena) == 1 {
        return true;
    }
    if n == 0 {
        return false;
    }
    (arena::prim_count(arena, parent) as u16) < depth
}

// Stores the header of a graph that node n, of this arc, is the last of.
fn store_header(arena: &mut [u8], n: u32, arc: u8, shallow: bool)
    requires arena_len { length arena.old ≡ arena_bytes }
    requires n_bound { n < 1024 }
    ensures { arena.new ≡ header_stored n arc shallow arena.old }
{
    arena::write_count(arena, n + 1);
    arena::write_state(arena, false, false, shallow);
    if arc == arena::arcs::ROOT {
        arena::write_local_root(arena, n);
    }
}

// Puts node n at the end of the parent's child list: the parent's last child, and its first where
// there was none, else the next sibling of the old last child. Node 0 has no parent.
fn link_child(arena: &mut [u8], parent: u32, n: u32)
    requires { CanLink arena.old parent n }
    ensures { arena.new ≡ child_linked parent n arena.old }
{
    if n == 0 {
        return;
    }
    let node = arena::load_node(arena, parent);
    let last = node.last_child.0;
    let grown = node.with_last_child(NodeId(n));
    if last == NodeId::INVALID.0 {
        arena::store_links(arena, parent, grown.with_first_child(NodeId(n)));
        return;
    }
    arena::store_links(arena, parent, grown);
    let sibling = arena::load_node(arena, last).with_next_sibling(NodeId(n));
    arena::store_links(arena, last, sibling);
}

// Stores node n, which has no child and no next sibling.
fn store_node(arena: &mut [u8], n: u32, node: Node, path: &[u8])
    requires has_slot { HasSlot arena.old n }
    requires record_length_value { (node.record_length ≡ 27 + length path.now) × (length path.now ≤ 255) }
    ensures { arena.new ≡ record_stored n node path.now
        (three_links n invalid invalid invalid arena.old) }
{
    let childless = node
        .with_first_child(NodeId::INVALID)
        .with_last_child(NodeId::INVALID);
    let unlinked = childless.with_next_sibling(NodeId::INVALID);
    arena::store_links(arena, n, unlinked);
    arena::store_record(arena, n, unlinked, path);
}

// Appends the node as number `count`, the last child of its parent; its links are ignored.
pub fn append_node(arena: &mut [u8], count: u32, node: Node, path: &[u8])
    requires { CanAppend arena.old count node path.now }
    ensures { arena.new ≡ encode
        (with_node (decode arena.old) (node_of node path.now)) arena.old }
{
    let shallow = is_shallow(arena, count, node.parent.0, node.depth);
    store_header(arena, count, node.arc, shallow);
    link_child(arena, node.parent.0, count);
    store_node(arena, count, node, path);
}
