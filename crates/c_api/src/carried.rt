// One number for the answer of a call, for callers in C: its refusal and its value, as
// specs/Carried.antt says.
ghost use Rattle.std.specs.Prelude.{◌≡◌, ℕ, ◌<◌, ◌^◌};
ghost use Rattle.model.specs.Answers.{ordering_number};
ghost use Rattle.model.specs.Lists.{bit};
ghost use Rattle.model.specs.Refusals.{refusal_number};
ghost use Rattle.c_api.specs.Carried.{carried, carried_as, node_value_number, value_of_nothing};

use model::{NodeId, Refusal};
use std::cmp::Ordering;

// What a call answers, as a number of 32 bits.
pub trait Value: Copy {
    ghost value: { Self → ℕ };

    fn number(self) -> u32
        ensures { result ≡ value self };
}

impl Value for u32 {
    ghost value = { λ n. n };

    fn number(self) -> u32 {
        self
    }
}

// 1 for yes and 0 for no.
impl Value for bool {
    ghost value = { bit };

    fn number(self) -> u32 {
        self as u32
    }
}

impl Value for Ordering {
    ghost value = { ordering_number };

    fn number(self) -> u32 {
        model::ordering_number(self) as u32
    }
}

// A node that was looked for: 4,294,967,295 for none.
impl Value for Option<NodeId> {
    ghost value = { node_value_number };

    fn number(self) -> u32 {
        NodeId::number_of(self)
    }
}

// The answer of a call that gives nothing.
impl Value for () {
    ghost value = { value_of_nothing };

    fn number(self) -> u32 {
        0
    }
}

// A refusal, and no value.
pub fn carry_refusal(refusal: Refusal) -> u64
    ensures { result ≡ carried (refusal_number refusal) 0 }
{
    (refusal.number() as u64) * 4294967296
}

// The answer of a call.
pub fn carry<T: Value>(answer: Result<T, Refusal>) -> u64
    ensures { result ≡ carried_as T.value answer }
{
    match answer {
        Ok(value) => value.number() as u64,
        Err(refusal) => carry_refusal(refusal),
    }
}
