// The call that culls. It has no `requires`: it puts its questions, the size of the buffer and
// whether it holds a graph first, and is refused by the first whose answer is no; then every lent
// byte is as it was. specs/CullCalls.antt says what it answers and leaves.
ghost use Rattle.culling.specs.CullCalls.{Culled};

use model::Refusal;

// Marks CULLED what contributes nothing, children first. Refused 1, 2 and 3.
pub fn cull_subtrees_without_opinions(arena: &mut [u8]) -> Result<(), Refusal>
    ensures { Culled arena.old result arena.new }
{
    validate::ask_node_zero(arena)?;
    crate::flags::cull(arena);
    Ok(())
}
