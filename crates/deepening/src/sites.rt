// The sites with the name appended: one node's, and those of all nodes in their own arena.
ghost use Rattle.std.specs.Prelude.{◌≡◌, length};
ghost use Rattle.model.specs.Arena.{node_in};
ghost use Rattle.model.specs.Deepening.{deepened};
ghost use Rattle.deepening.specs.Deepened.{CanJoin, AllJoin, Joined, site_stored, sites_deepened};

use arena::Node;

// The record of node n with the name appended to its path: one prim more, and as long as its new
// path, which is written to `path`.
pub(crate) fn deepen_record(arena: &[u8], n: u32, name: &[u8], path: &mut [u8]) -> Node
    requires { CanJoin arena.now name.now n × (length path.old ≡ 255) }
    ensures { Joined arena.now name.now n result path.new }
{
    let old = arena::path(arena, n);
    let at = path::join::joint(old);
    path::join::put_joined(old, name, at, path);
    let mut node = arena::load_node(arena, n);
    node.prim_count += 1;
    node.record_length = (arena::offsets::PATH + (at + name.len())) as u16;
    node
}

// Appends the name to the site of node n.
fn deepen_site(arena: &mut [u8], n: u32, name: &[u8])
    requires { CanJoin arena.old name.now n }
    ensures { arena.new ≡ site_stored n (deepened name.now (node_in arena.old n))
        arena.old }
{
    let mut path: [u8; 255] = [0; 255];
    let node = deepen_record(arena, n, name, &mut path);
    let end = (node.record_length as usize) - arena::offsets::PATH;
    arena::store_record(arena, n, node, &path[..end]);
}

// Appends the name to the site of each of `count` nodes.
pub(crate) fn deepen_sites(arena: &mut [u8], count: u32, name: &[u8])
    requires { AllJoin arena.old name.now count }
    ensures { arena.new ≡ sites_deepened name.now count arena.old }
{
    for n in 0..count {
        deepen_site(arena, n, name);
    }
}
