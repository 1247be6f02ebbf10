// The flag CULLED on what contributes nothing, children first. All flags are decided in a local
// array over the unchanged arena, from the highest node down, and then written in one loop. It
// never refuses: the arena holds a graph, which its callers prove.
// The definitions are in model/specs/Culling.antt; specs/Culled.antt says what the parts decide.
ghost use Rattle.std.specs.Prelude.{◌≡◌, ◌≤◌, length};
ghost use Rattle.model.specs.Arena.{arena_bytes};
ghost use Rattle.model.specs.ArenaCalls.{ValidArena};
ghost use Rattle.culling.specs.Culled.{CulledArena, Rooted, HasFlagsFrom, Clear, flags_written};

// Decides the flags of each node, children first: `unculled`, all 0 at first, has 1 where a node
// has an unculled child. Node 0 keeps its flags.
fn find_flags(arena: &[u8], count: u32, root: u32, unculled: &mut [u8], flags: &mut [u8])
    requires rooted { Rooted arena.now count root }
    requires unculled_len { (length unculled.old ≡ 1024) × (length flags.old ≡ 1024) × Clear unculled.old }
    ensures { HasFlagsFrom arena.now 0 flags.new }
{
    for n in (1..count).rev() {
        let i = n as usize;
        let old = arena::flags(arena, n);
        if crate::deciding::can_cull(arena, root, n, unculled[i] != 0) {
            flags[i] = validate::with_culled(old);
        } else {
            flags[i] = old;
            unculled[view::parent(arena, n) as usize] = 1;
        }
    }
    flags[0] = arena::flags(arena, 0);
}

// Stores the flags of each node.
fn write_all_flags(arena: &mut [u8], count: u32, flags: &[u8])
    requires { (length arena.old ≡ arena_bytes) × (count ≤ 1024) × (length flags.now ≡ 1024) }
    ensures { arena.new ≡ flags_written flags.now count arena.old }
{
    for n in 0..count {
        arena::write_flags(arena, n, flags[n as usize]);
    }
}

// Culls a graph that has a local root.
fn cull_rooted(arena: &mut [u8], count: u32, root: u32)
    requires { Rooted arena.old count root }
    ensures { CulledArena arena.old arena.new }
{
    let mut unculled: [u8; 1024] = [0; 1024];
    let mut flags: [u8; 1024] = [0; 1024];
    find_flags(arena, count, root, &mut unculled, &mut flags);
    write_all_flags(arena, count, &flags);
}

// Culls the graph. With no local root nothing changes.
pub fn cull(arena: &mut [u8])
    requires { ValidArena arena.old }
    ensures { CulledArena arena.old arena.new }
{
    let count = arena::count(arena);
    if count == 0 {
        return;
    }
    let root = arena::local_root(arena);
    if root == 0 {
        return;
    }
    cull_rooted(arena, count, root);
}
