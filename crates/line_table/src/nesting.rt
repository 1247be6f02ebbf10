// Which nodes are nested with one, by the outward steps that the table keeps.
ghost use Rattle.std.specs.Prelude.{◌≡◌, ◌≤◌, ◌<◌, length};
ghost use Rattle.model.specs.Arena.{count_in};
ghost use Rattle.model.specs.ArenaCalls.{ValidArena};
ghost use Rattle.view.specs.View.{view_in};
ghost use Rattle.line_table.specs.LineTable.{Inward, NestedRow, Tabled};

// Marks each node from which r is met, itself counted. An outward step goes to a lower node, which
// is marked already.
fn mark_inward(arena: &[u8], table: &[u16], count: u32, r: u32, row: &mut [u8])
    requires valid_arena { ValidArena arena.now × Tabled arena.now table.now × (count ≡ count_in arena.now) }
    requires r_lt_count { (r < count) × (count ≤ length row.old) }
    ensures { Inward (view_in arena.now) count r row.new }
{
    row[0] = (r == 0) as u8;
    for m in 1..count {
        let i = m as usize;
        if m == r {
            row[i] = 1;
        } else {
            row[i] = row[table[i * 16 + 9] as usize];
        }
    }
}

// Marks each node that is met from r.
fn mark_outward(arena: &[u8], table: &[u16], count: u32, r: u32, row: &mut [u8])
    requires valid_arena { ValidArena arena.now × Tabled arena.now table.now × (count ≡ count_in arena.now) }
    requires r_lt_count { (r < count) × Inward (view_in arena.now) count r row.old }
    ensures { NestedRow (view_in arena.now) count r row.new }
{
    let mut x = r as usize;
    while x != 0 {
        row[x] = 1;
        x = table[x * 16 + 9] as usize;
    }
    row[0] = 1;
}

// Says of each node in `row`, 1 or 0, whether it and r are nested: one is met from the other.
pub fn nest(arena: &[u8], table: &[u16], count: u32, r: u32, row: &mut [u8])
    requires valid_arena { ValidArena arena.now × Tabled arena.now table.now × (count ≡ count_in arena.now) }
    requires r_lt_count { (r < count) × (count ≤ length row.old) }
    ensures { NestedRow (view_in arena.now) count r row.new }
{
    mark_inward(arena, table, count, r, row);
    mark_outward(arena, table, count, r, row);
}
