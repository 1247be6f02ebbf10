// The table filled in one pass, a row after the other: each row from the arena and from rows of
// lower nodes.
ghost use Rattle.std.specs.Prelude.{◌≡◌, ◌+◌, ◌*◌, ◌≤◌, length};
ghost use Rattle.model.specs.Arena.{count_in, local_root_in, decode};
ghost use Rattle.model.specs.ArenaCalls.{ValidArena, ValidNode};
ghost use Rattle.model.specs.Graph.{depth_below_introduction};
ghost use Rattle.model.specs.Strength.{class_depth};
ghost use Rattle.view.specs.View.{view_in};
ghost use Rattle.line_table.specs.LineTable.{Cell, Filled, Filling, Tabled, skipped_depth, hierarchy_depth};

use crate::cells::{cell, put};

// The second half of row 0: what other rows may read of it.
fn fill_root(arena: &[u8], table: &mut [u16])
    requires { ValidNode arena.now 0 × (count_in arena.now * 16 ≤ length table.old) }
    ensures { Filled arena.now table.new 16 }
{
    let depth = view::depth(arena, 0);
    table[8] = 0;
    table[9] = 0;
    table[10] = 0;
    table[11] = 0;
    table[12] = 0;
    table[13] = depth;
    table[14] = depth;
    table[15] = 0;
}

// Columns 0 to 3 of row n: the numbers of its record.
fn fill_numbers(arena: &[u8], root: u32, n: u32, table: &mut [u16])
    requires { Filling arena.now table.old root n 0 }
    ensures { Filling arena.now table.new root n 4 }
{
    put(arena, table, n, 0, view::origin(arena, n));
    put(arena, table, n, 1, view::depth(arena, n) as u32);
    put(arena, table, n, 2, view::sibling(arena, n) as u32);
    put(arena, table, n, 3, view::rank(arena, n) as u32);
}

// Columns 4 to 6: tests of its record.
fn fill_tests(arena: &[u8], root: u32, n: u32, table: &mut [u16])
    requires { Filling arena.now table.old root n 4 }
    ensures { Filling arena.now table.new root n 7 }
{
    put(
        arena,
        table,
        n,
        4,
        u32::from(view::has_specializes(arena, n)),
    );
    put(arena, table, n, 5, u32::from(view::is_authored(arena, n)));
    put(
        arena,
        table,
        n,
        6,
        u32::from(view::in_local_stack(arena, root, n)),
    );
}

// Columns 7 to 9: implied, the node that it is replaced by, and the step outward. A propagated
// specializes has its origin's site.
fn fill_sites(arena: &[u8], root: u32, n: u32, table: &mut [u16])
    requires { Filling arena.now table.old root n 7 }
    ensures { Filling arena.now table.new root n 10 }
{
    if view::is_propagated_specializes(arena, root, n) {
        let origin = cell(table, n, 0);
        put(arena, table, n, 7, 0);
        put(arena, table, n, 8, origin);
        put(arena, table, n, 9, origin);
    } else {
        put(arena, table, n, 7, u32::from(view::is_implied(arena, n)));
        put(arena, table, n, 8, n);
        put(arena, table, n, 9, view::parent(arena, n));
    }
}

// Columns 10 and 11: R and its hops.
fn fill_origins(arena: &[u8], root: u32, n: u32, table: &mut [u16])
    requires { Filling arena.now table.old root n 10 }
    ensures { Filling arena.now table.new root n 12 }
{
    if cell(table, n, 5) == 1 {
        put(arena, table, n, 10, n);
        put(arena, table, n, 11, 0);
    } else {
        let from = cell(table, n, 0);
        let first = cell(table, from, 10);
        let hops = cell(table, from, 11);
        put(arena, table, n, 10, first);
        put(arena, table, n, 11, hops + 1);
    }
}

// The depth of the first node from n upward that is no Relocate.
fn skipped_depth(arena: &[u8], root: u32, n: u32, table: &[u16]) -> u32
    requires { Filling arena.now table.now root n 12 }
    ensures { Cell (skipped_depth (view_in arena.now) n) result }
{
    if view::arc(arena, n) != arena::arcs::RELOCATE {
        return cell(table, n, 1);
    }
    cell(table, view::parent(arena, n), 13)
}

// D from node n, which is not replaced itself: up over class arcs with one depth below
// introduction. `skipped` is where it stays at n.
fn hierarchy_depth(arena: &[u8], root: u32, n: u32, table: &[u16], below: u32, skipped: u32) -> u32
    requires filling { Filling arena.now table.now root n 12 }
    requires below_value { below ≡ depth_below_introduction (decode arena.now).nodes n }
    requires cell { Cell (skipped_depth (view_in arena.now) n) skipped }
    ensures { Cell (hierarchy_depth (view_in arena.now) n) result }
{
    if !view::is_class_based(view::arc(arena, n)) {
        return skipped;
    }
    let up = cell(table, view::parent(arena, n), 8);
    if cell(table, up, 12) == below {
        return cell(table, up, 14);
    }
    cell(table, up, 13)
}

// The class depth of node n: 0 if it is authored, else D of its origin.
fn class_depth(arena: &[u8], root: u32, n: u32, table: &[u16]) -> u32
    requires { Filling arena.now table.now root n 12 }
    ensures { Cell (class_depth (view_in arena.now) n) result }
{
    if cell(table, n, 5) == 1 {
        return 0;
    }
    let origin = cell(table, n, 0);
    cell(table, cell(table, origin, 8), 14)
}

// Columns 12 to 15: the depth below introduction, and those of the class hierarchy.
fn fill_classes(arena: &[u8], root: u32, n: u32, table: &mut [u16])
    requires { Filling arena.now table.old root n 12 }
    ensures { Filled arena.now table.new (n * 16 + 16) }
{
    let below = view::depth_below(arena, n) as u32;
    let skipped = skipped_depth(arena, root, n, table);
    let hierarchy = hierarchy_depth(arena, root, n, table, below, skipped);
    let class = class_depth(arena, root, n, table);
    put(arena, table, n, 12, below);
    put(arena, table, n, 13, skipped);
    put(arena, table, n, 14, hierarchy);
    put(arena, table, n, 15, class);
}

// Row n of the table.
fn fill_row(arena: &[u8], root: u32, n: u32, table: &mut [u16])
    requires { Filling arena.now table.old root n 0 }
    ensures { Filled arena.now table.new (n * 16 + 16) }
{
    fill_numbers(arena, root, n, table);
    fill_tests(arena, root, n, table);
    fill_sites(arena, root, n, table);
    fill_origins(arena, root, n, table);
    fill_classes(arena, root, n, table);
}

// Fills the table with the rows of the graph's nodes.
pub fn fill(arena: &[u8], root: u32, count: u32, table: &mut [u16])
    requires valid_arena { ValidArena arena.now × (root ≡ local_root_in arena.now) × (count ≡ count_in arena.now) }
    requires count_in_bounds { count * 16 ≤ length table.old }
    ensures { Tabled arena.now table.new }
{
    if count == 0 {
        return;
    }
    fill_root(arena, table);
    for n in 1..count {
        fill_row(arena, root, n, table);
    }
}
