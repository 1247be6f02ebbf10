// Whether a node's list is in order: its runs one after the other.
ghost use Rattle.std.specs.Prelude.{true, ◌≤◌, ◌<◌, length};
ghost use Rattle.model.specs.Arena.{count_in};
ghost use Rattle.certificate.specs.Certificate.{Given, Reaches, Part, PartInOrder, RunEnd};

use crate::runs::run_in_order;

// Where the children of the first one's rank end.
fn run_end(
    arena: &[u8],
    table: &[u16],
    sorted: &[u32],
    parent: u32,
    start: usize,
    end: usize,
) -> usize
    requires given { Given arena.now table.now sorted.now }
    requires part { Part arena.now sorted.now parent start end × (start < end) }
    ensures { RunEnd arena.now sorted.now start end result }
{
    let first = line_table::entry_of(arena, table, sorted[start]);
    let rank = first.rank;
    for i in start + 1..end {
        let e = line_table::entry_of(arena, table, sorted[i]);
        if e.rank != rank {
            return i;
        }
    }
    end
}

// Whether the list of a node is in order: its ranks rise from run to run, and each run is in order.
pub(crate) fn list_in_order(
    arena: &[u8],
    table: &[u16],
    places: &[u16],
    sorted: &[u32],
    parent: u32,
    start: usize,
    end: usize,
    row: &mut [u8],
) -> bool
    requires given { Given arena.now table.now sorted.now × Reaches arena.now places.now }
    requires part { Part arena.now sorted.now parent start end × (count_in arena.now ≤ length row.old) }
    ensures { PartInOrder arena.now places.now sorted.now start end result }
{
    let mut least: u32 = 0;
    let mut at = start;
    // No `for` over `chunk_by`: a run is passed on by where it stands in `sorted`, not as a slice.
    while at < end {
        let first = line_table::entry_of(arena, table, sorted[at]);
        let rank = first.rank;
        if rank < least {
            return false;
        }
        let next = run_end(arena, table, sorted, parent, at, end);
        if !run_in_order(arena, table, places, sorted, parent, at, next, row) {
            return false;
        }
        least = rank + 1;
        at = next;
    }
    true
}
