// The cells of the table: one read, the next one stored.
ghost use Rattle.std.specs.Prelude.{◌≡◌, ◌+◌, ◌*◌, ◌≤◌, ◌<◌, length, get_or};
ghost use Rattle.line_table.specs.LineTable.{Cell, Filled, Next};

// Column k of row n.
pub(crate) fn cell(table: &[u16], n: u32, k: usize) -> u32
    requires { n * 16 + k < length table.now }
    ensures { Cell (get_or table.now (n * 16 + k) 0) result }
{
    table[n as usize * 16 + k] as u32
}

// The rank of node n.
pub fn rank(table: &[u16], n: u32) -> u32
    requires { n * 16 + 3 < length table.now }
{
    cell(table, n, 3)
}

// Where the step outward from node n leads.
pub fn outward(table: &[u16], n: u32) -> u32
    requires { n * 16 + 9 < length table.now }
{
    cell(table, n, 9)
}

// Stores column k of row n, the first that is not filled. The arena is there for the contract.
pub(crate) fn put(arena: &[u8], table: &mut [u16], n: u32, k: usize, value: u32)
    requires { Next arena.now table.old n k value }
    ensures { Filled arena.now table.new (n * 16 + (k + 1)) }
{
    table[n as usize * 16 + k] = value as u16;
}
