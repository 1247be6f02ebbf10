// What the comparison's lines ask of one node: authored, implied, propagated.
ghost use Rattle.std.specs.Prelude.{◌≡◌, ◌<◌};
ghost use Rattle.model.specs.ArenaCalls.{ValidNode};
ghost use Rattle.model.specs.Strength.{is_authored, is_implied, is_class_based_arc, is_propagated_specializes};
ghost use Rattle.model.specs.Strength.{outward, replaced};
ghost use Rattle.view.specs.View.{view_in, ValidNodeAndRoot};

// Whether a node with this arc is a class's instance: Inherit or Specialize.
pub fn is_class_based(arc: u8) -> bool
    ensures { result ≡ is_class_based_arc arc }
{
    if arc == arena::arcs::INHERIT {
        return true;
    }
    arc == arena::arcs::SPECIALIZE
}

// Whether node n is authored: its origin is its parent.
pub fn is_authored(arena: &[u8], n: u32) -> bool
    requires { ValidNode arena.now n }
    ensures { result ≡ is_authored (view_in arena.now) n }
{
    arena::origin(arena, n) == arena::parent(arena, n)
}

// Whether node n is implied: its site differs from its origin's. Node 0 has no origin.
pub fn is_implied(arena: &[u8], n: u32) -> bool
    requires { ValidNode arena.now n × (0 < n) }
    ensures { result ≡ is_implied (view_in arena.now) n }
{
    let origin = arena::origin(arena, n);
    !crate::sites::same_site(arena, n, origin)
}

// Whether node n is a propagated specializes: arc Specialize, the local root as parent, and its
// origin's site.
pub fn is_propagated_specializes(arena: &[u8], root: u32, n: u32) -> bool
    requires { ValidNodeAndRoot arena.now root n }
    ensures { result ≡ is_propagated_specializes (view_in arena.now) n }
{
    if arena::arc(arena, n) != arena::arcs::SPECIALIZE {
        return false;
    }
    if root == 0 {
        return false;
    }
    if arena::parent(arena, n) != root {
        return false;
    }
    let origin = arena::origin(arena, n);
    crate::sites::same_site(arena, n, origin)
}

// The origin of a propagated specializes; any other node is itself.
pub fn replaced(arena: &[u8], root: u32, n: u32) -> u32
    requires { ValidNodeAndRoot arena.now root n }
    ensures { result ≡ replaced (view_in arena.now) n }
{
    if is_propagated_specializes(arena, root, n) {
        return arena::origin(arena, n);
    }
    n
}

// The step outward from node n: to the origin of a propagated specializes, else to the parent.
pub fn outward(arena: &[u8], root: u32, n: u32) -> u32
    requires { ValidNodeAndRoot arena.now root n }
    ensures { result ≡ outward (view_in arena.now) n }
{
    if is_propagated_specializes(arena, root, n) {
        return arena::origin(arena, n);
    }
    arena::parent(arena, n)
}
