// Whether one node is culled.
ghost use Rattle.std.specs.Prelude.{◌≡◌, ◌≤◌};
ghost use Rattle.model.specs.Arena.{decode};
ghost use Rattle.model.specs.ArenaCalls.{ValidNode};
ghost use Rattle.model.specs.Culling.{introducer, keeps_inherit};
ghost use Rattle.view.specs.View.{ValidNodeAndRoot};
ghost use Rattle.culling.specs.Culled.{is_kept, can_cull_under};

// t of document 01: node n if it is authored, else where its origins begin.
fn introducer(arena: &[u8], n: u32) -> u32
    requires { ValidNode arena.now n }
    ensures { (result ≡ introducer (decode arena.now).nodes n) × (result ≤ n) }
{
    if view::is_authored(arena, n) {
        return n;
    }
    let found = view::origin_root_node(arena, n);
    found.node
}

// Whether node n is an Inherit in the local root's stack that stays: t's introduction path has not
// one prim. It has as many as t's path, less t's depth below introduction.
fn keeps_inherit(arena: &[u8], root: u32, n: u32) -> bool
    requires { ValidNodeAndRoot arena.now root n }
    ensures { result ≡ keeps_inherit (decode arena.now).nodes n }
{
    if view::arc(arena, n) != arena::arcs::INHERIT {
        return false;
    }
    if !view::in_local_stack(arena, root, n) {
        return false;
    }
    let t = introducer(arena, n);
    let prims = arena::prim_count(arena, t) as u16;
    prims != view::depth_below(arena, t) + 1
}

// Whether node n stays whatever its children do.
fn is_kept(arena: &[u8], root: u32, n: u32) -> bool
    requires { ValidNodeAndRoot arena.now root n }
    ensures { result ≡ is_kept (decode arena.now).nodes n }
{
    if view::arc(arena, n) == arena::arcs::ROOT {
        return true;
    }
    if view::depth_below(arena, n) == 0 {
        return true;
    }
    if keeps_inherit(arena, root, n) {
        return true;
    }
    if arena::has_specs(arena, n) != 1 {
        return false;
    }
    !validate::is_inert(arena::flags(arena, n))
}

// Whether node n is culled, where `unculled` says whether a child of it is not.
pub(crate) fn can_cull(arena: &[u8], root: u32, n: u32, unculled: bool) -> bool
    requires { ValidNodeAndRoot arena.now root n }
    ensures { result ≡ can_cull_under unculled (decode arena.now).nodes n }
{
    if validate::is_culled(arena::flags(arena, n)) {
        return true;
    }
    if is_kept(arena, root, n) {
        return false;
    }
    !unculled
}
