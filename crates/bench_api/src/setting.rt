// The calls that set fields of one node.
ghost use Rattle.std.specs.Prelude.{Some};
ghost use Rattle.model.specs.ArenaCalls.{on_arena};
ghost use Rattle.model.specs.Calls.{mark, set_first_spec, set_has_specs, set_restriction_depth};
ghost use Rattle.c_api.specs.Carried.{WroteCarried};

// `mark`.
#[unsafe(no_mangle)]
pub extern "C" fn bench_mark(arena: &mut [u8], n: u32, flags: u8) -> u64
    ensures { WroteCarried (on_arena (mark n flags) arena.old) arena.old result
        arena.new }
{
    c_api::carry(prim_graph::mark(arena, n, flags))
}

// `set_first_spec`, with a position.
#[unsafe(no_mangle)]
pub extern "C" fn bench_set_first_spec(arena: &mut [u8], n: u32, first: u16) -> u64
    ensures { WroteCarried (on_arena (set_first_spec n (Some first)) arena.old) arena.old result
        arena.new }
{
    c_api::carry(prim_graph::set_first_spec(arena, n, Some(first)))
}

// `set_has_specs`.
#[unsafe(no_mangle)]
pub extern "C" fn bench_set_has_specs(arena: &mut [u8], n: u32, authored: bool) -> u64
    ensures { WroteCarried (on_arena (set_has_specs n authored) arena.old) arena.old result
        arena.new }
{
    c_api::carry(prim_graph::set_has_specs(arena, n, authored))
}

// `set_restriction_depth`.
#[unsafe(no_mangle)]
pub extern "C" fn bench_set_restriction_depth(arena: &mut [u8], n: u32, depth: u16) -> u64
    ensures { WroteCarried (on_arena (set_restriction_depth n depth) arena.old) arena.old result
        arena.new }
{
    c_api::carry(prim_graph::set_restriction_depth(arena, n, depth))
}
