// What document 01's lines read of each node, found once for a whole graph and kept in a table that
// is lent: a pair of siblings then costs a few loads and no walk. `fill` fills the table in one
// pass, `entry_of` reads a node's row, `weigh` has the lines on two entries, and `nest` says which
// nodes are nested with one. It never refuses, and writes nothing but the table and the row that
// are lent: the arena holds a graph, which callers prove. specs/LineTable.antt says what stands in
// a row and what a verdict on two entries means.
#![tactic(auto)]

mod cells;
mod filling;
mod lines;
mod nesting;

ghost use Rattle.std.specs.Prelude.{◌≡◌, ◌<◌};
ghost use Rattle.model.specs.Arena.{count_in};
ghost use Rattle.view.specs.View.{view_in};
ghost use Rattle.line_table.specs.LineTable.{EntryOf, Tabled};

pub use cells::{outward, rank};
pub use filling::fill;
pub use lines::weigh;
pub use nesting::nest;

// What the lines read of a node: `root` is R of document 01.
#[derive(Clone, Copy)]
pub struct Entry {
    pub node: u32,
    pub rank: u32,
    pub depth: u32,
    pub sibling: u32,
    pub origin: u32,
    pub special: bool,
    pub authored: bool,
    pub implied: bool,
    pub local: bool,
    pub root: u32,
    pub hops: u32,
    pub class_depth: u32,
}

// The entry of node n, from its row.
pub fn entry_of(arena: &[u8], table: &[u16], n: u32) -> Entry
    requires { Tabled arena.now table.now × (0 < n) × (n < count_in arena.now) }
    ensures { (result.node ≡ n) × EntryOf (view_in arena.now) result }
{
    Entry {
        node: n,
        rank: cells::cell(table, n, 3),
        depth: cells::cell(table, n, 1),
        sibling: cells::cell(table, n, 2),
        origin: cells::cell(table, n, 0),
        special: cells::cell(table, n, 4) == 1,
        authored: cells::cell(table, n, 5) == 1,
        implied: cells::cell(table, n, 7) == 1,
        local: cells::cell(table, n, 6) == 1,
        root: cells::cell(table, n, 10),
        hops: cells::cell(table, n, 11),
        class_depth: cells::cell(table, n, 15),
    }
}
