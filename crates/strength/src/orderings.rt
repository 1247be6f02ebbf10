// Orderings: of two numbers and of two tests.
ghost use Rattle.std.specs.Prelude.{◌≡◌};
ghost use Rattle.model.specs.Strength.{smaller, having};

use std::cmp::Ordering;

// The smaller is the stronger.
pub fn by_number(x: u32, y: u32) -> Ordering
    ensures { result ≡ smaller x y }
{
    x.cmp(&y)
}

// The one that it holds of is the stronger.
pub fn by_having(x: bool, y: bool) -> Ordering
    ensures { result ≡ having x y }
{
    y.cmp(&x)
}
