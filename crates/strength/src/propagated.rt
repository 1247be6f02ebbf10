// The copy of a specializes node under the local root.
ghost use Rattle.std.specs.Prelude.{◌≡◌};
ghost use Rattle.model.specs.Arena.{decode, children_in};
ghost use Rattle.model.specs.Hierarchy.{first_in, is_copy, get_propagated_specializes_node};
ghost use Rattle.view.specs.View.{view_in, ValidNodeAndRoot};

// Whether `child` is a propagated specializes whose origin is node n.
fn is_copy(arena: &[u8], root: u32, n: u32, child: u32) -> bool
    requires { ValidNodeAndRoot arena.now root child }
    ensures { result ≡ is_copy (view_in arena.now) n child }
{
    if view::origin(arena, child) != n {
        return false;
    }
    view::is_propagated_specializes(arena, root, child)
}

// The first such child of the local root; 4,294,967,295 where there is none. A child list has no
// more nodes than the graph.
fn first_copy(arena: &[u8], root: u32, n: u32) -> u32
    requires { ValidNodeAndRoot arena.now root root }
    ensures { result ≡ first_in (is_copy (view_in arena.now) n) (children_in arena.now root) }
{
    let count = arena::count(arena);
    let mut child = arena::first_child(arena, root);
    for _passed in 0..count {
        if child >= count {
            return arena::NO_NODE;
        }
        if is_copy(arena, root, n, child) {
            return child;
        }
        child = arena::next_sibling(arena, child);
    }
    arena::NO_NODE
}

// The propagated specializes under the local root whose origin is node n, itself a Specialize;
// 4,294,967,295 where there is none.
pub(crate) fn find_copy(arena: &[u8], root: u32, n: u32) -> u32
    requires { ValidNodeAndRoot arena.now root n }
    ensures { result ≡ get_propagated_specializes_node (decode arena.now) n }
{
    if view::arc(arena, n) != arena::arcs::SPECIALIZE {
        return arena::NO_NODE;
    }
    if root == 0 {
        return arena::NO_NODE;
    }
    first_copy(arena, root, n)
}
