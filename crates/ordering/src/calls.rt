// The calls that order a graph and read its order, all of it or one entry. None has a `requires`:
// each puts its questions, the size of each buffer and whether the arena holds a graph first, and
// is refused by the first whose answer is no; then every lent byte is as it was.
// specs/Finalizing.antt and OrderReading.antt say what each answers and leaves.
ghost use Rattle.std.specs.Prelude.{◌≡◌, length, get_or};
ghost use Rattle.model.specs.Arena.{count_in, arena_bytes, decode};
ghost use Rattle.model.specs.ArenaCalls.{ValidArena, ask_arena, Answered};
ghost use Rattle.ordering.specs.Finalizing.{Finalized};
ghost use Rattle.model.specs.Bytes.{stored};
ghost use Rattle.model.specs.Calls.{reads_entry};
ghost use Rattle.ordering.specs.OrderReading.{entries_in, order_bytes, OrderWritten};

use model::Refusal;

// Sorts each child list and walks them; a finalized graph is left as it is. Refused 1, 2, 3 and 9.
pub fn finalize_strength_order(arena: &mut [u8]) -> Result<(), Refusal>
    ensures { Finalized arena.old result arena.new }
{
    validate::ask_node_zero(arena)?;
    if arena::finalized(arena) == 1 {
        return Ok(());
    }
    if !crate::writing::order_graph(arena) {
        return Err(Refusal::NoOrder);
    }
    Ok(())
}

// Question 10: whether the order counts.
fn is_ordered(arena: &[u8]) -> bool
    requires { length arena.now ≡ arena_bytes }
    ensures { result ≡ (decode arena.now).ordered }
{
    arena::ordered(arena) == 1
}

// Writes the order to the front of `out`, which has 4,096 bytes: a node's number in 4 bytes each,
// and answers how many nodes it has. Refused 1, 2, 3 and 10.
pub fn strength_order(arena: &[u8], out: &mut [u8]) -> Result<u32, Refusal>
    ensures { OrderWritten arena.now out.old result out.new }
{
    if out.len() != arena::ORDER_BYTES {
        return Err(Refusal::Size);
    }
    validate::ask_node_zero(arena)?;
    if !is_ordered(arena) {
        return Err(Refusal::NotOrdered);
    }
    let count = arena::count(arena);
    write_entries(arena, count, out);
    Ok(count)
}

// Writes the entries of the order, one after the other.
fn write_entries(arena: &[u8], count: u32, out: &mut [u8])
    requires { ValidArena arena.now × (count ≡ count_in arena.now) × (length out.old ≡ 4096) }
    ensures { out.new ≡ stored 0 (order_bytes (entries_in arena.now)) out.old }
{
    for n in 0..count {
        big_endian::write_u32(out, 4 * (n as usize), arena::order_entry(arena, n));
    }
}

// The node at a place of the order. Refused 1, 2, 3, 4 where the place is not below the count, and
// 10.
pub fn order_entry(arena: &[u8], place: u32) -> Result<u32, Refusal>
    ensures { Answered (ask_arena arena.now (reads_entry (decode arena.now) place))
        (get_or (decode arena.now).order place 0) result }
{
    validate::ask_node(arena, place)?;
    if !is_ordered(arena) {
        return Err(Refusal::NotOrdered);
    }
    Ok(arena::order_entry(arena, place))
}
