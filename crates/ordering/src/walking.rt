// The walk, parent first, by the links in the arena: no stack, since a parent is read there too.
// Its entries are stored on the way; they are no links. Of one node it is kept where the walk goes
// on from there, so that a long way up is not climbed that was just walked down.
ghost use Rattle.std.specs.Prelude.{◌≡◌, ◌+◌};
ghost use Rattle.model.specs.Arena.{next_sibling_in};
ghost use Rattle.arena.specs.Slot.{parent_in};
ghost use Rattle.ordering.specs.Ordering.{onward, step_in, Knows, Climbable, Walkable, walk_stored};

// A node, and the next of the walk once its children are all done.
#[derive(Clone, Copy)]
struct Ahead {
    node: u32,
    next: u32,
}

// From a node whose children are all done to the next of the walk: its sibling, or its parent's,
// and so on; 4,294,967,295 where the walk ends.
fn climb(arena: &[u8], from: u32, known: Ahead) -> u32
    requires { Climbable arena.now from × Knows arena.now known }
    ensures { result ≡ onward (next_sibling_in arena.now) (parent_in arena.now) (from + 1) from }
{
    let mut node = from;
    while node != 0 {
        if node == known.node {
            return known.next;
        }
        let sibling = arena::next_sibling(arena, node);
        if sibling != arena::NO_NODE {
            return sibling;
        }
        node = arena::parent(arena, node);
    }
    arena::NO_NODE
}

// The node after x in the walk: its first child, else where climbing leads.
fn next_of(arena: &[u8], x: u32, known: Ahead) -> u32
    requires { Climbable arena.now x × Knows arena.now known }
    ensures { result ≡ step_in arena.now x }
{
    let child = arena::first_child(arena, x);
    if child != arena::NO_NODE {
        return child;
    }
    climb(arena, x, known)
}

// What is kept once the walk has come to x: where it goes on from x, if that is seen there or known
// of the parent; else what was kept.
fn look_ahead(arena: &[u8], x: u32, known: Ahead) -> Ahead
    requires { Climbable arena.now x × Knows arena.now known }
    ensures { Knows arena.now result }
{
    if x == 0 {
        return known;
    }
    let sibling = arena::next_sibling(arena, x);
    if sibling != arena::NO_NODE {
        return Ahead {
            node: x,
            next: sibling,
        };
    }
    if arena::parent(arena, x) != known.node {
        return known;
    }
    Ahead {
        node: x,
        next: known.next,
    }
}

// Walks from node 0 and stores each node in the order. It steps before it stores, so that nothing
// is looked for after the last node.
pub(crate) fn write_walk(arena: &mut [u8], count: u32)
    requires { Walkable arena.old count }
    ensures { arena.new ≡ walk_stored count arena.old }
{
    arena::write_order_entry(arena, 0, 0);
    let mut known = Ahead {
        node: 0,
        next: arena::NO_NODE,
    };
    let mut x: u32 = 0;
    for at in 1..count {
        known = look_ahead(arena, x, known);
        x = next_of(arena, x, known);
        arena::write_order_entry(arena, at, x);
    }
}
