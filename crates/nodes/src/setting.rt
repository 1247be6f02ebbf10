// The calls that set fields of one node after it was added: its flags, its specs and its
// restriction depth. None has a `requires`: each puts its questions in document 01's order and is
// refused by the first whose answer is no; then no byte has changed, because everything is read and
// decided before the one store.
// The calls and their questions are in model/specs/Calls.antt, what they set in
// model/specs/Setting.antt; specs/Setting.antt has what is stored of the specs.
ghost use Rattle.std.specs.Prelude.{◌≡◌};
ghost use Rattle.model.specs.ArenaCalls.{on_arena, Finishes};
ghost use Rattle.model.specs.Calls.{mark, set_first_spec, set_has_specs, set_restriction_depth};
ghost use Rattle.model.specs.Setting.{with_flags, may_mark};
ghost use Rattle.arena.specs.Slot.{HasSlot};
ghost use Rattle.nodes.specs.Setting.{first_spec_stored};

use model::Refusal;

// ---- Flags

// The given flags joined with these by or: only INERT, CULLED and PROHIBITED_CHILDREN are set.
fn with_flags(given: u8, flags: u8) -> u8
    ensures { result ≡ with_flags given flags }
{
    flags | (given & 7)
}

// Question 6 of `mark`: only INERT, CULLED and PROHIBITED_CHILDREN are given, and to a node whose
// arc is Root not CULLED.
fn may_mark(arc: u8, flags: u8) -> bool
    ensures { result ≡ may_mark flags arc }
{
    if flags > 7 {
        return false;
    }
    if arc != arena::arcs::ROOT {
        return true;
    }
    !validate::is_culled(flags)
}

// Joins the flags with those of node n by or. Refused 1 to 4 and 6.
pub fn mark(arena: &mut [u8], n: u32, flags: u8) -> Result<(), Refusal>
    ensures { Finishes (on_arena (mark n flags) arena.old)
        arena.old result arena.new }
{
    validate::ask_node(arena, n)?;
    if !may_mark(arena::arc(arena, n), flags) {
        return Err(Refusal::Kind);
    }
    let joined = with_flags(flags, arena::flags(arena, n));
    arena::write_flags(arena, n, joined);
    Ok(())
}

// ---- Specs

// Stores the position of the first spec and that there is one, or 0 and that there is none.
fn write_first_spec(arena: &mut [u8], n: u32, first: Option<u16>)
    requires { HasSlot arena.old n }
    ensures { arena.new ≡ first_spec_stored n first arena.old }
{
    match first {
        Some(position) => arena::write_specs(arena, n, position, 1),
        None => arena::write_specs(arena, n, 0, 0),
    }
}

// Sets the position in node n's stack of the strongest layer with a spec at its path, or that no
// layer has one. Refused 1 to 4.
pub fn set_first_spec(arena: &mut [u8], n: u32, first: Option<u16>) -> Result<(), Refusal>
    ensures { Finishes (on_arena (set_first_spec n first) arena.old)
        arena.old result arena.new }
{
    validate::ask_node(arena, n)?;
    write_first_spec(arena, n, first);
    Ok(())
}

// Sets whether node n has specs, without saying which layer has the first: position 0. Refused 1 to
// 4.
pub fn set_has_specs(arena: &mut [u8], n: u32, authored: bool) -> Result<(), Refusal>
    ensures { Finishes (on_arena (set_has_specs n authored) arena.old)
        arena.old result arena.new }
{
    if authored {
        return set_first_spec(arena, n, Some(0));
    }
    set_first_spec(arena, n, None)
}

// ---- The restriction depth

// Sets the restriction depth of node n. Refused 1 to 4.
pub fn set_restriction_depth(arena: &mut [u8], n: u32, depth: u16) -> Result<(), Refusal>
    ensures { Finishes (on_arena (set_restriction_depth n depth) arena.old)
        arena.old result arena.new }
{
    validate::ask_node(arena, n)?;
    arena::write_restriction(arena, n, depth);
    Ok(())
}
