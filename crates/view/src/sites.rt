// What is read of a node's site and of its parent's.
ghost use Rattle.std.specs.Prelude.{◌≡◌, ◌-◌, ◌≤◌};
ghost use Rattle.model.specs.Arena.{decode};
ghost use Rattle.model.specs.ArenaCalls.{ValidNode};
ghost use Rattle.model.specs.Graph.{depth_below_introduction};
ghost use Rattle.view.specs.View.{view_in, ValidNodeAndRoot};

// Whether two nodes have one site: the same stack and the same path.
pub fn same_site(arena: &[u8], a: u32, b: u32) -> bool
    requires { ValidNode arena.now a × ValidNode arena.now b }
    ensures { result ≡ (view_in arena.now).same_site a b }
{
    if arena::stack(arena, a) != arena::stack(arena, b) {
        return false;
    }
    path::same_path(arena::path(arena, a), arena::path(arena, b))
}

// Whether node n has the local root's stack: never where there is no local root.
pub fn in_local_stack(arena: &[u8], root: u32, n: u32) -> bool
    requires { ValidNodeAndRoot arena.now root n }
    ensures { result ≡ (view_in arena.now).local_stack n }
{
    if root == 0 {
        return false;
    }
    arena::stack(arena, root) == arena::stack(arena, n)
}

// The prims of the parent's path that were there when the node was introduced, taken from all of
// them; 0 where there were more.
fn less(prims: u8, depth: u16) -> u16
    ensures { (result ≡ prims - depth) × (result ≤ 255) }
{
    if (prims as u16) < depth {
        return 0;
    }
    prims as u16 - depth
}

// The depth below introduction of node n.
pub fn depth_below(arena: &[u8], n: u32) -> u16
    requires { ValidNode arena.now n }
    ensures { (result ≡ depth_below_introduction (decode arena.now).nodes n) × (result ≤ 255) }
{
    if n == 0 {
        return 0;
    }
    let parent = arena::parent(arena, n);
    less(arena::prim_count(arena, parent), arena::depth(arena, n))
}
