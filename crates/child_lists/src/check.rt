// Whether the links of an arena write each node's child list, once its records have been found
// right: the part of document 01's question 2 that says "each node but 0 once in its parent's
// chain". It answers by counting. A list that ends has no node twice, and if its nodes are all
// children of its node it has none of another's; so the lists have each node but 0 once where they
// are together as long as there are such nodes. No note is kept of what was met, each link is read
// once, and a cycle ends by running out of the budget. It writes nothing.
// What is right is in specs/ChildLists.antt.
ghost use Rattle.std.specs.Prelude.{◌≡◌, ◌<◌};
ghost use Rattle.model.specs.Arena.{count_in};
ghost use Rattle.child_lists.specs.ChildLists.{Parented, child_lists_valid, left_after};

// How many nodes of `budget` are left after the child list of `parent`. None where the list is
// wrong: it has more, has a node that is no child of `parent`, or does not end in its last child.
fn left_after(arena: &[u8], count: u32, parent: u32, budget: u32) -> Option<u32>
    requires parented { Parented arena.now }
    requires count_value { (count ≡ count_in arena.now) × (parent < count) }
    ensures { result ≡ left_after arena.now parent budget }
{
    let mut last = arena::NO_NODE;
    let mut at = arena::first_child(arena, parent);
    let mut left = budget;
    while at < count {
        if left == 0 {
            return None;
        }
        if arena::parent(arena, at) != parent {
            return None;
        }
        last = at;
        at = arena::next_sibling(arena, at);
        left -= 1;
    }
    if at != arena::NO_NODE {
        return None;
    }
    if arena::last_child(arena, parent) != last {
        return None;
    }
    Some(left)
}

// Whether the links of `count` nodes write their child lists. One budget, of as many nodes as there
// are but 0, serves all lists: too short for a cycle, and used up only where each of them is in a
// list.
pub fn are_valid(arena: &[u8], count: u32) -> bool
    requires parented { Parented arena.now }
    requires count_value { count ≡ count_in arena.now }
    ensures { result ≡ child_lists_valid arena.now }
{
    if count == 0 {
        return true;
    }
    if arena::next_sibling(arena, 0) != arena::NO_NODE {
        return false;
    }
    let mut left = count - 1;
    for n in 0..count {
        let Some(rest) = left_after(arena, count, n, left) else {
            return false;
        };
        left = rest;
    }
    left == 0
}
