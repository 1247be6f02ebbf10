// Comparisons below the questions, which are put before, to every pair: what bench/ measures.
// specs/Pairs.antt says what is asked and what is added up. Which comparison is meant stays a flag,
// since the C function `bench_ask_pairs` is given one.
ghost use Rattle.std.specs.Prelude.{◌≡◌, ◌<◌, ◌/◌, length};
ghost use Rattle.model.specs.Answers.{answer_refusal};
ghost use Rattle.model.specs.Arena.{count_in, local_root_in};
ghost use Rattle.model.specs.ArenaCalls.{ValidArena, ValidNode};
ghost use Rattle.bench_api.specs.Pairs.{are_siblings, pair_refused, pairs_refused, call_refused, comparison, pair_sum};
ghost use Rattle.bench_api.specs.Pairs.{first_of, second_of, asked_number, pairs_number};

use model::{Refusal, ordering_number};
use std::cmp::Ordering;

// Whether two nodes have one parent, and neither is node 0.
#[tactic(auto, unfolding(crate::specs::Pairs::are_siblings))]
fn are_siblings(arena: &[u8], a: u32, b: u32) -> bool
    requires { ValidNode arena.now a × ValidNode arena.now b }
    ensures { result ≡ are_siblings arena.now a b }
{
    a != 0 && b != 0 && view::parent(arena, a) == view::parent(arena, b)
}

// Whether a pair is refused: by 4, of siblings by 4 or 8.
#[tactic(auto, unfolding(crate::specs::Pairs::pair_refused))]
fn ask_pair(arena: &[u8], siblings: bool, count: u32, a: u32, b: u32) -> Result<(), Refusal>
    requires { ValidArena arena.now × (count ≡ count_in arena.now) }
    ensures { answer_refusal result ≡ pair_refused siblings arena.now a b }
{
    if a >= count || b >= count {
        return Err(Refusal::Node);
    }
    if siblings && !are_siblings(arena, a, b) {
        return Err(Refusal::NotSiblings);
    }
    Ok(())
}

// Pair i of the list.
fn pair(pairs: &[u8], i: usize) -> (u32, u32)
    requires { i < length pairs.now / 8 }
    ensures first { result.0 ≡ first_of pairs.now i }
    ensures second { result.1 ≡ second_of pairs.now i }
{
    let at = 8 * i;
    (
        big_endian::read_u32(pairs, at),
        big_endian::read_u32(pairs, at + 4),
    )
}

// Whether a pair is refused: by what refuses the first of them.
fn ask_pairs(arena: &[u8], pairs: &[u8], siblings: bool) -> Result<(), Refusal>
    requires { ValidArena arena.now }
    ensures { answer_refusal result ≡ pairs_refused (pair_refused siblings arena.now) pairs.now
        (length pairs.now / 8) }
{
    let count = arena::count(arena);
    for i in 0..pairs.len() / 8 {
        let (a, b) = pair(pairs, i);
        ask_pair(arena, siblings, count, a, b)?;
    }
    Ok(())
}

// Whether a call is refused: questions 1 and 2, then every pair's.
#[tactic(auto, unfolding(crate::specs::Pairs::call_refused))]
fn ask_call(arena: &[u8], pairs: &[u8], siblings: bool) -> Result<(), Refusal>
    ensures { answer_refusal result ≡ call_refused siblings arena.now pairs.now }
{
    if arena.len() != arena::ARENA_BYTES || pairs.len() > 8388608 {
        return Err(Refusal::Size);
    }
    if !validate::is_graph(arena) {
        return Err(Refusal::NotAGraph);
    }
    ask_pairs(arena, pairs, siblings)
}

// Which of a pair that has passed is the stronger.
fn compare_pair(arena: &[u8], siblings: bool, root: u32, a: u32, b: u32) -> Ordering
    requires { ValidArena arena.now × (root ≡ local_root_in arena.now)
        × (pair_refused siblings arena.now a b ≡ 0) }
    ensures { result ≡ comparison siblings arena.now a b }
{
    if siblings {
        return strength::compare_sibling_node_strength(arena, root, a, b);
    }
    strength::compare_node_strength(arena, root, a, b)
}

// The sum over pairs that have passed: nothing is asked here. One loop for this and `ask_pairs` would
// need a contract that speaks of any step, and is no plainer than these two.
fn sum_pairs(arena: &[u8], pairs: &[u8], siblings: bool) -> u64
    requires { call_refused siblings arena.now pairs.now ≡ 0 }
    ensures { result ≡ pair_sum (comparison siblings arena.now) pairs.now
        (length pairs.now / 8) }
{
    let root = arena::local_root(arena);
    let mut sum: u64 = 0;
    for i in 0..pairs.len() / 8 {
        let (a, b) = pair(pairs, i);
        sum += ordering_number(compare_pair(arena, siblings, root, a, b)) as u64;
    }
    sum
}

// The refusal, and no value.
pub(crate) fn only_ask(arena: &[u8], pairs: &[u8], siblings: bool) -> u64
    ensures { result ≡ asked_number siblings arena.now pairs.now }
{
    match ask_call(arena, pairs, siblings) {
        Ok(()) => 0,
        Err(refusal) => c_api::carry_refusal(refusal),
    }
}

// The refusal, or the sum.
pub(crate) fn compare_pairs(arena: &[u8], pairs: &[u8], siblings: bool) -> u64
    ensures { result ≡ pairs_number siblings arena.now pairs.now }
{
    match ask_call(arena, pairs, siblings) {
        Ok(()) => sum_pairs(arena, pairs, siblings),
        Err(refusal) => c_api::carry_refusal(refusal),
    }
}
