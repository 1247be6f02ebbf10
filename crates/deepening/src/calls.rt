// The calls that append a child's name to every site: in place, and into a second arena. None has a
// `requires`: each puts its questions, the size of each buffer and whether the arena that is read
// holds a graph first, and is refused by the first whose answer is no; then every lent byte is as
// it was. specs/ChildNames.antt says what each answers and leaves.
ghost use Rattle.std.specs.Prelude.{◌≡◌};
ghost use Rattle.model.specs.Answers.{answer_refusal};
ghost use Rattle.model.specs.Arena.{decode};
ghost use Rattle.model.specs.ArenaCalls.{ask_arena};
ghost use Rattle.model.specs.Calls.{deepen_questions};
ghost use Rattle.model.specs.Refusals.{refusal};
ghost use Rattle.deepening.specs.ChildNames.{Deepened, Seeded};

use model::Refusal;

// Questions 1, 2, 3, 5 and 7 of the arena that is read.
fn ask(arena: &[u8], child: &[u8]) -> Result<(), Refusal>
    ensures { answer_refusal result ≡ refusal
        (ask_arena arena.now (deepen_questions child.now (decode arena.now))) }
{
    validate::ask_node_zero(arena)?;
    if !path::is_well_formed(child) {
        return Err(Refusal::Path);
    }
    let name = path::last_name(child);
    if name.len() == 0 {
        return Err(Refusal::Path);
    }
    if !crate::appending::paths_fit(arena, name) {
        return Err(Refusal::Capacity);
    }
    Ok(())
}

// Appends the last name of the child's path to the path of every node. Refused 1, 2, 3, 5 where the
// child's path is none or ends in no name, and 7 where a path would pass 255 bytes or all of them
// 32,768.
pub fn append_child_name_to_all_sites(arena: &mut [u8], child: &[u8]) -> Result<(), Refusal>
    ensures { Deepened child.now arena.old result arena.new }
{
    ask(arena, child)?;
    crate::appending::append_name_to_all_sites(arena, path::last_name(child));
    Ok(())
}

// Fills the arena `into`, whatever it held, with the graph of `from`, the last name of the child's
// path appended to the path of every node. Refused as `append_child_name_to_all_sites` is, the size
// being asked of both.
pub fn seed_child(from: &[u8], into: &mut [u8], child: &[u8]) -> Result<(), Refusal>
    ensures { Seeded child.now from.now into.old result into.new }
{
    if into.len() != arena::ARENA_BYTES {
        return Err(Refusal::Size);
    }
    ask(from, child)?;
    crate::appending::seed(from, into, path::last_name(child));
    Ok(())
}
