// The lines that others are put together from. specs/Verdicts.antt says what their verdict means.
ghost use Rattle.std.specs.Prelude.{◌≡◌};
ghost use Rattle.model.specs.ArenaCalls.{ValidNode};
ghost use Rattle.model.specs.Strength.{first, smaller, implied_over};
ghost use Rattle.view.specs.View.{view_in};
ghost use Rattle.strength.specs.Verdicts.{Pair, DecidedBy, origins_then_numbers};

use crate::orderings::{by_having, by_number};
use model::Verdict;
use std::cmp::Ordering;

// The namespace depth of node n, as wide as the numbers that are compared.
pub fn depth(arena: &[u8], n: u32) -> u32
    requires { ValidNode arena.now n }
    ensures { result ≡ (view_in arena.now).depth n }
{
    view::depth(arena, n) as u32
}

// "Smaller sibling number, then smaller node number."
pub fn by_sibling(arena: &[u8], a: u32, b: u32) -> Ordering
    requires { ValidNode arena.now a × ValidNode arena.now b }
    ensures { result ≡ first
        (smaller ((view_in arena.now).sibling a) ((view_in arena.now).sibling b)) (smaller a b) }
{
    let x = view::sibling(arena, a) as u32;
    let y = view::sibling(arena, b) as u32;
    by_number(x, y).then(by_number(a, b))
}

// "Implied over not implied".
pub fn implied_over(arena: &[u8], root: u32, a: u32, b: u32) -> Ordering
    requires { Pair arena.now root a b }
    ensures { result ≡ implied_over (view_in arena.now) a b }
{
    by_having(view::is_implied(arena, a), view::is_implied(arena, b))
}

// "Node strength of the origins", then the smaller node number.
pub fn ask_origins(arena: &[u8], root: u32, a: u32, b: u32) -> Verdict
    requires { Pair arena.now root a b }
    ensures { DecidedBy (origins_then_numbers (view_in arena.now)) arena.now a b result }
{
    let x = view::origin(arena, a);
    let y = view::origin(arena, b);
    Verdict::Ask(x, y, by_number(a, b))
}
