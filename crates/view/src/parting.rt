// Chains of parents: where two part, and whether one node stands in another's.
ghost use Rattle.std.specs.Prelude.{◌≡◌};
ghost use Rattle.model.specs.ArenaCalls.{ValidNode};
ghost use Rattle.model.specs.Hierarchy.{is_ancestor_of};
ghost use Rattle.view.specs.View.{view_in, ValidNodeAndRoot};
ghost use Rattle.view.specs.Walks.{Parts};

// Where the chains of two nodes, from node 0 down, part: nowhere, below the first node, below the
// second, or at two siblings.
#[derive(Clone, Copy)]
pub enum Parting {
    Same,
    Above,
    Below,
    Apart(u32, u32),
}

// Where the chains of nodes a and b part. The higher of two numbers is lifted to its parent until
// they are one: parents are lower.
pub fn part_chains(arena: &[u8], a: u32, b: u32) -> Parting
    requires { ValidNode arena.now a × ValidNode arena.now b }
    ensures { Parts (view_in arena.now) a b result }
{
    if a == b {
        return Parting::Same;
    }
    let mut x = a;
    let mut y = b;
    let mut left = a;
    let mut right = b;
    while x != y {
        if x < y {
            right = y;
            y = crate::fields::parent(arena, y);
        } else {
            left = x;
            x = crate::fields::parent(arena, x);
        }
    }
    if x == a {
        return Parting::Above;
    }
    if x == b {
        return Parting::Below;
    }
    Parting::Apart(left, right)
}

// Whether x is met from y, itself counted, before the local root and node 0.
pub fn is_ancestor_of(arena: &[u8], root: u32, x: u32, y: u32) -> bool
    requires { ValidNodeAndRoot arena.now root x × ValidNodeAndRoot arena.now root y }
    ensures { result ≡ is_ancestor_of (view_in arena.now) x y }
{
    let mut node = y;
    while node != 0 {
        if node == root {
            return false;
        }
        if node == x {
            return true;
        }
        node = crate::fields::parent(arena, node);
    }
    false
}
