// What the firm asked of every list of the calls that write a graph (demand 3), of the bytes.
// specs/Demand3.antt states it and proofs/Demand3Proof.antt proves it. Each function here makes one
// of its calls and no more, to say by its contract that what the code leaves is the step of the
// list (specs/Steps.antt).
#![tactic(auto)]

ghost use Rattle.call_sequences.specs.Steps.{Starts, Adds, Orders, Culls, Erases, Deepens, Reads, Seeds};
ghost use Rattle.call_sequences.specs.Steps.{Marks, SetsFirstSpec, SetsHasSpecs, SetsRestriction};

use model::Refusal;
use nodes::NodeDesc;

// The call `starting`.
pub fn start(arena: &mut [u8], stack: u32, layer: u32, path: &[u8]) -> Result<u32, Refusal>
    ensures { Starts stack layer path.now arena.old arena.new }
{
    prim_graph::init_root(arena, stack, layer, path)
}

// The call `adding`.
pub fn add(arena: &mut [u8], desc: NodeDesc, path: &[u8]) -> Result<u32, Refusal>
    ensures { Adds desc path.now arena.old arena.new }
{
    prim_graph::add_child(arena, desc, path)
}

// The call `ordering`.
pub fn order(arena: &mut [u8]) -> Result<(), Refusal>
    ensures { Orders arena.old arena.new }
{
    prim_graph::finalize_strength_order(arena)
}

// The call `culling`.
pub fn cull(arena: &mut [u8]) -> Result<(), Refusal>
    ensures { Culls arena.old arena.new }
{
    prim_graph::cull_subtrees_without_opinions(arena)
}

// The call `erasing`.
pub fn erase(arena: &mut [u8], set: &[u8]) -> Result<u32, Refusal>
    ensures { Erases set.now arena.old arena.new }
{
    prim_graph::erase(arena, set)
}

// The call `deepening`.
pub fn deepen(arena: &mut [u8], child: &[u8]) -> Result<(), Refusal>
    ensures { Deepens child.now arena.old arena.new }
{
    prim_graph::append_child_name_to_all_sites(arena, child)
}

// The call `reading`.
pub fn read(arena: &mut [u8], snapshot: &[u8]) -> Result<u32, Refusal>
    ensures { Reads snapshot.now arena.old arena.new }
{
    prim_graph::read_snapshot(arena, snapshot)
}

// The call `marking`.
pub fn mark(arena: &mut [u8], n: u32, flags: u8) -> Result<(), Refusal>
    ensures { Marks n flags arena.old arena.new }
{
    prim_graph::mark(arena, n, flags)
}

// The call `setting_first_spec`.
pub fn set_first_spec(arena: &mut [u8], n: u32, first: Option<u16>) -> Result<(), Refusal>
    ensures { SetsFirstSpec n first arena.old arena.new }
{
    prim_graph::set_first_spec(arena, n, first)
}

// The call `setting_has_specs`.
pub fn set_has_specs(arena: &mut [u8], n: u32, authored: bool) -> Result<(), Refusal>
    ensures { SetsHasSpecs n authored arena.old arena.new }
{
    prim_graph::set_has_specs(arena, n, authored)
}

// The call `setting_restriction`.
pub fn set_restriction_depth(arena: &mut [u8], n: u32, depth: u16) -> Result<(), Refusal>
    ensures { SetsRestriction n depth arena.old arena.new }
{
    prim_graph::set_restriction_depth(arena, n, depth)
}

// Seeding, which fills a second arena: where it is done, that one is where a list may begin.
pub fn seed(from: &[u8], into: &mut [u8], child: &[u8]) -> Result<(), Refusal>
    ensures { Seeds child.now from.now into.old result into.new }
{
    prim_graph::seed_child(from, into, child)
}
