// Whether a part of a list, of one rank, is in order: by neighbours, as copies, or by all pairs.
ghost use Rattle.std.specs.Prelude.{◌≡◌, true, false, ◌≤◌, ◌<◌, length};
ghost use Rattle.model.specs.Arena.{count_in};
ghost use Rattle.model.specs.ArenaCalls.{ValidArena};
ghost use Rattle.view.specs.View.{view_in};
ghost use Rattle.line_table.specs.LineTable.{NestedRow, Tabled};
ghost use Rattle.certificate.specs.Certificate.{Given, Reaches, Part, OneDepth, OneRank, PartInOrder};

use crate::entries::{comes_next, if_authored, is_before, is_copy, rises};

// Whether no child of a part is a copy (`is_copy`) and each is before the next: then each is before
// all later ones.
fn neighbours_in_order(
    arena: &[u8],
    table: &[u16],
    places: &[u16],
    sorted: &[u32],
    parent: u32,
    start: usize,
    end: usize,
) -> bool
    requires given { Given arena.now table.now sorted.now × Reaches arena.now places.now }
    requires part { Part arena.now sorted.now parent start end × (start < end) }
    ensures { PartInOrder arena.now places.now sorted.now start end result }
{
    let mut last = line_table::entry_of(arena, table, sorted[start]);
    if is_copy(last) {
        return false;
    }
    for &c in &sorted[start + 1..end] {
        let e = line_table::entry_of(arena, table, c);
        if is_copy(e) {
            return false;
        }
        if !is_before(places, last, e, false) {
            return false;
        }
        last = e;
    }
    true
}

// Whether some depth of a part differs from the first.
fn has_two_depths(
    arena: &[u8],
    table: &[u16],
    sorted: &[u32],
    parent: u32,
    start: usize,
    end: usize,
) -> bool
    requires given { Given arena.now table.now sorted.now }
    requires part { Part arena.now sorted.now parent start end × (start < end) }
    ensures { result ≡ false → OneDepth arena.now sorted.now start end }
{
    let first = line_table::entry_of(arena, table, sorted[start]);
    let depth = first.depth;
    for &c in &sorted[start..end] {
        let e = line_table::entry_of(arena, table, c);
        if e.depth != depth {
            return true;
        }
    }
    false
}

// Whether a part of one rank is all HAS_SPECIALIZES, of one depth or one R, each follows the one
// before it, and the authored ones rise: then each is before all later ones. `sibling` and `node`
// are the last authored one's.
fn copies_in_order(
    arena: &[u8],
    table: &[u16],
    places: &[u16],
    sorted: &[u32],
    parent: u32,
    start: usize,
    end: usize,
    uneven: bool,
) -> bool
    requires given { Given arena.now table.now sorted.now × Reaches arena.now places.now }
    requires part { Part arena.now sorted.now parent start end × (start < end) }
    requires one_rank { OneRank arena.now sorted.now start end }
    requires one_depth { uneven ≡ false → OneDepth arena.now sorted.now start end }
    ensures { PartInOrder arena.now places.now sorted.now start end result }
{
    let mut last = line_table::entry_of(arena, table, sorted[start]);
    if !last.special {
        return false;
    }
    let mut sibling = if_authored(last, last.sibling, 0);
    let mut node = if_authored(last, last.node, 0);
    for &c in &sorted[start + 1..end] {
        let e = line_table::entry_of(arena, table, c);
        if !comes_next(places, last, e, uneven) {
            return false;
        }
        if !rises(sibling, node, e) {
            return false;
        }
        sibling = if_authored(e, e.sibling, sibling);
        node = if_authored(e, e.node, node);
        last = e;
    }
    true
}

// The row of nodes that are nested with r, where it is wanted.
fn nest_where(wanted: bool, arena: &[u8], table: &[u16], count: u32, r: u32, row: &mut [u8])
    requires valid_arena { ValidArena arena.now × Tabled arena.now table.now × (count ≡ count_in arena.now) }
    requires r_lt_count { (r < count) × (count ≤ length row.old) }
    ensures { wanted ≡ true → NestedRow (view_in arena.now) count r row.new }
{
    if wanted {
        line_table::nest(arena, table, count, r, row);
    }
}

// Whether each earlier child of a part is before each later one: the search over pairs stops at the
// first pair that is not Less. `uneven`: their depths may differ, and then `row` is used to say
// which R are nested.
fn pairs_in_order(
    arena: &[u8],
    table: &[u16],
    places: &[u16],
    sorted: &[u32],
    parent: u32,
    start: usize,
    end: usize,
    uneven: bool,
    row: &mut [u8],
) -> bool
    requires given { Given arena.now table.now sorted.now × Reaches arena.now places.now }
    requires part { Part arena.now sorted.now parent start end }
    requires one_depth { uneven ≡ false → OneDepth arena.now sorted.now start end }
    requires arena_in_bounds { count_in arena.now ≤ length row.old }
    ensures { PartInOrder arena.now places.now sorted.now start end result }
{
    let count = arena::count(arena);
    let mut found = true;
    'pairs: for i in start..end {
        let a = line_table::entry_of(arena, table, sorted[i]);
        nest_where(uneven, arena, table, count, a.root, row);
        for &c in &sorted[i + 1..end] {
            let b = line_table::entry_of(arena, table, c);
            let r = b.root as usize;
            if !is_before(places, a, b, row[r] == 1) {
                found = false;
                break 'pairs;
            }
        }
    }
    found
}

// Whether a part of one rank is in order: one child alone is; else by neighbours where that is
// enough, else by all pairs.
pub(crate) fn run_in_order(
    arena: &[u8],
    table: &[u16],
    places: &[u16],
    sorted: &[u32],
    parent: u32,
    start: usize,
    end: usize,
    row: &mut [u8],
) -> bool
    requires given { Given arena.now table.now sorted.now × Reaches arena.now places.now }
    requires part { Part arena.now sorted.now parent start end × (start < end) }
    requires one_rank { OneRank arena.now sorted.now start end × (count_in arena.now ≤ length row.old) }
    ensures { PartInOrder arena.now places.now sorted.now start end result }
{
    if end - start == 1 {
        return true;
    }
    if neighbours_in_order(arena, table, places, sorted, parent, start, end) {
        return true;
    }
    let uneven = has_two_depths(arena, table, sorted, parent, start, end);
    if copies_in_order(arena, table, places, sorted, parent, start, end, uneven) {
        return true;
    }
    pairs_in_order(
        arena, table, places, sorted, parent, start, end, uneven, row,
    )
}
