// What the comparison reads of one node: a function for each field of `View`.
ghost use Rattle.std.specs.Prelude.{◌≡◌};
ghost use Rattle.model.specs.ArenaCalls.{ValidNode};
ghost use Rattle.model.specs.Strength.{arc_rank};
ghost use Rattle.view.specs.View.{view_in};

// The parent of node n.
pub fn parent(arena: &[u8], n: u32) -> u32
    requires { ValidNode arena.now n }
    ensures { result ≡ (view_in arena.now).parent n }
{
    arena::parent(arena, n)
}

// The origin of node n.
pub fn origin(arena: &[u8], n: u32) -> u32
    requires { ValidNode arena.now n }
    ensures { result ≡ (view_in arena.now).origin n }
{
    arena::origin(arena, n)
}

// The arc of node n.
pub fn arc(arena: &[u8], n: u32) -> u8
    requires { ValidNode arena.now n }
    ensures { result ≡ (view_in arena.now).arc n }
{
    arena::arc(arena, n)
}

// The rank of an arc, the smaller the stronger: OpenUSD's LIVERPS in the page's sequence, a case
// each. What is no arc comes after them, by its number.
fn arc_rank(arc: u8) -> u8
    ensures { result ≡ arc_rank arc }
{
    match arc {
        arena::arcs::ROOT => 0, // Local
        arena::arcs::INHERIT => 1, // Inherits
        arena::arcs::VARIANT => 2, // Variants
        arena::arcs::RELOCATE => 3, // rElocates
        arena::arcs::REFERENCE => 4, // References
        arena::arcs::PAYLOAD => 5, // Payloads
        arena::arcs::SPECIALIZE => 6, // Specializes
        _ => arc,
    }
}

// The rank of node n's arc, the smaller the stronger.
pub fn rank(arena: &[u8], n: u32) -> u8
    requires { ValidNode arena.now n }
    ensures { result ≡ (view_in arena.now).rank n }
{
    arc_rank(arena::arc(arena, n))
}

// Whether node n is HAS_SPECIALIZES.
pub fn has_specializes(arena: &[u8], n: u32) -> bool
    requires { ValidNode arena.now n }
    ensures { result ≡ (view_in arena.now).special n }
{
    arena::flags(arena, n) / 8 % 2 == 1
}

// The namespace depth of node n.
pub fn depth(arena: &[u8], n: u32) -> u16
    requires { ValidNode arena.now n }
    ensures { result ≡ (view_in arena.now).depth n }
{
    arena::depth(arena, n)
}

// The sibling number of node n.
pub fn sibling(arena: &[u8], n: u32) -> u16
    requires { ValidNode arena.now n }
    ensures { result ≡ (view_in arena.now).sibling n }
{
    arena::sibling(arena, n)
}
