// Chains of origins: where one begins, and whether two nodes are nested. Every step goes to a lower
// node, and no chain is stored.
ghost use Rattle.std.specs.Prelude.{◌≡◌};
ghost use Rattle.model.specs.ArenaCalls.{ValidNode};
ghost use Rattle.model.specs.Strength.{is_nested_under, origins_are_nested};
ghost use Rattle.view.specs.View.{view_in, ValidNodeAndRoot};
ghost use Rattle.view.specs.Walks.{RootOf};

// R(n) of document 01 and its hops.
#[derive(Clone, Copy)]
pub struct OriginRoot {
    pub node: u32,
    pub hops: u32,
}

// Where the origins from node n on begin, and how many steps that is.
pub fn origin_root_node(arena: &[u8], n: u32) -> OriginRoot
    requires { ValidNode arena.now n }
    ensures { RootOf (view_in arena.now) n result }
{
    let mut node = n;
    let mut hops: u32 = 0;
    while node != 0 {
        let origin = crate::fields::origin(arena, node);
        if origin == crate::fields::parent(arena, node) {
            return OriginRoot { node, hops };
        }
        node = origin;
        hops += 1;
    }
    OriginRoot { node, hops }
}

// Whether y is met from x, itself counted, going outward.
fn is_nested_under(arena: &[u8], root: u32, x: u32, y: u32) -> bool
    requires { ValidNodeAndRoot arena.now root x }
    ensures { result ≡ is_nested_under (view_in arena.now) x y }
{
    let mut n = x;
    while n != y {
        if n == 0 {
            return false;
        }
        n = crate::relations::outward(arena, root, n);
    }
    true
}

// Whether one of two nodes is met from the other.
pub fn origins_are_nested(arena: &[u8], root: u32, a: u32, b: u32) -> bool
    requires { ValidNodeAndRoot arena.now root a × ValidNodeAndRoot arena.now root b }
    ensures { result ≡ origins_are_nested (view_in arena.now) a b }
{
    if is_nested_under(arena, root, a, b) {
        return true;
    }
    is_nested_under(arena, root, b, a)
}
