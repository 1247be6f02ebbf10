// The calls that find the erasable set and erase a set. None has a `requires`: each puts its
// questions, the size of each buffer and whether the arena holds a graph first, and is refused by
// the first whose answer is no; then every lent byte is as it was. specs/Erasures.antt says what
// each answers and leaves.
ghost use Rattle.std.specs.Prelude.{◌≡◌};
ghost use Rattle.model.specs.Answers.{answer_refusal};
ghost use Rattle.model.specs.Refusals.{refusal};
ghost use Rattle.erasing.specs.Erasures.{set_questions, ErasableWritten, Erased};

use model::Refusal;

// Questions 1 to 3, the first of the set too.
fn ask(arena: &[u8], set: &[u8]) -> Result<(), Refusal>
    ensures { answer_refusal result ≡ refusal (set_questions arena.now set.now) }
{
    if set.len() != arena::SET_BYTES {
        return Err(Refusal::Size);
    }
    validate::ask_node_zero(arena)
}

// Writes the erasable set to `set`, which has 1,024 bytes: 1 for a node that goes, 0 for one that
// stays and from the count on. Refused 1, 2 and 3.
pub fn erasable(arena: &[u8], set: &mut [u8]) -> Result<(), Refusal>
    ensures { ErasableWritten arena.now set.old result set.new }
{
    ask(arena, set)?;
    crate::sets::erasable(arena, set);
    Ok(())
}

// Erases the nodes whose byte in `set` is 1, renumbers the rest in order, and answers how many are
// kept. Refused 1, 2, 3, and 11 where the set has another byte below the count, a Root arc, or the
// parent or origin of a node that stays.
pub fn erase(arena: &mut [u8], set: &[u8]) -> Result<u32, Refusal>
    ensures { Erased set.now arena.old result arena.new }
{
    ask(arena, set)?;
    if !crate::sets::can_erase(arena, set) {
        return Err(Refusal::EraseSet);
    }
    Ok(crate::in_place::erase(arena, set))
}
