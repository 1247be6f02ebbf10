// Reading many paths: two bytes by one row, by two tables that the caller makes once and lends,
// with no branch on a byte. A byte has a kind, and a pair of kinds has a row; a row has for each
// state of the reading, at 7 times its number, the state reached, as 7 times its number, and a bit
// above that says whether a name begins. So a state is the amount to shift a row by. One path alone
// is read quicker by scan.rt, for the tables take time to make.
// specs/Tables.antt has the tables; proofs/PathTables.antt shows that a row takes the steps of
// model/specs/Path.antt.
ghost use Rattle.std.specs.Prelude.{◌≡◌, ◌+◌, ◌≤◌, ◌<◌, length};
ghost use Rattle.model.specs.Path.{start, count_prims};
ghost use Rattle.path.specs.PathReading.{reading};
ghost use Rattle.path.specs.Tables.{Tables, kind_of, row_of, no_byte, Reached, ReadTo, ending, ends_as, is_names};

use crate::rows::{kinds, pairs};

// The row of two bytes.
fn row_of_two(kinds: &[u8], pairs: &[u64], a: u8, b: u8) -> u64
    requires { Tables kinds.now pairs.now }
    ensures { result ≡ row_of (kind_of a) (kind_of b) }
{
    pairs[(kinds[256 + (a as usize)] as usize) + (kinds[b as usize] as usize)]
}

// The row of one byte and none.
fn row_of_one(kinds: &[u8], pairs: &[u64], b: u8) -> u64
    requires { Tables kinds.now pairs.now }
    ensures { result ≡ row_of (kind_of b) no_byte }
{
    pairs[(kinds[256 + (b as usize)] as usize) + 8]
}

// A state and so many names as one number: the names 64 times, and the state's last six bits.
fn joined(state: u64, names: u64) -> u64
    requires { names ≤ 255 }
    ensures { (result < 16384) × (ends_as result ≡ ending state names) }
{
    names * 64 + state % 64
}

// The reading's end, where one byte is left or none.
fn read_last(kinds: &[u8], pairs: &[u64], path: &[u8], at: usize, state: u64, names: u64) -> u64
    requires tables { Tables kinds.now pairs.now }
    requires reached { Reached path.now at state names }
    requires path_len_bound { (length path.now ≤ at + 1) × (length path.now ≤ 255) }
    ensures { ReadTo path.now result }
{
    if path.len() <= at {
        return joined(state, names);
    }
    let last = row_of_one(kinds, pairs, path[at]) >> (state % 64);
    joined(last, names + last / 64 % 2)
}

// The reading's end, where at most three bytes are left.
fn read_rest(kinds: &[u8], pairs: &[u64], path: &[u8], at: usize, state: u64, names: u64) -> u64
    requires tables { Tables kinds.now pairs.now }
    requires reached { Reached path.now at state names }
    requires path_len_bound { (length path.now ≤ at + 3) × (length path.now ≤ 255) }
    ensures { ReadTo path.now result }
{
    if path.len() <= at + 1 {
        return read_last(kinds, pairs, path, at, state, names);
    }
    let next = row_of_two(kinds, pairs, path[at], path[at + 1]) >> (state % 64);
    read_last(kinds, pairs, path, at + 2, next, names + next / 64 % 2)
}

// The end of the reading of what follows the first slash, as one number. Two rows a turn, for a
// turn takes time of its own. Where the rest begins is known by `i`, which a `for` would not hand on.
fn read_behind_slash(kinds: &[u8], pairs: &[u64], path: &[u8]) -> u64
    requires tables { Tables kinds.now pairs.now }
    requires in_bounds { (1 ≤ length path.now) × (length path.now ≤ 255) }
    ensures { ReadTo path.now result }
{
    let mut state: u64 = 7;
    let mut names: u64 = 0;
    let mut i: usize = 1;
    while i + 3 < path.len() {
        let half = row_of_two(kinds, pairs, path[i], path[i + 1]) >> (state % 64);
        names += half / 64 % 2;
        state = row_of_two(kinds, pairs, path[i + 2], path[i + 3]) >> (half % 64);
        names += state / 64 % 2;
        i += 4;
    }
    read_rest(kinds, pairs, path, i, state, names)
}

// What a reading that ends with this number comes to: it may end in a name and after a selection.
fn ended(word: u64) -> Option<u16>
    requires { word < 16384 }
    ensures { result ≡ ends_as word }
{
    let end = word % 64;
    if end == 14 {
        return Some((word / 64) as u16);
    }
    if end == 42 {
        return Some((word / 64) as u16);
    }
    None
}

// How many names the path has, or that the bytes are no path, where they are at most 255.
pub fn read_path(kinds: &[u8], pairs: &[u64], path: &[u8]) -> Option<u16>
    requires tables { Tables kinds.now pairs.now }
    requires path_len_bound { length path.now ≤ 255 }
    ensures { result ≡ reading start 0 path.now }
{
    if path.len() == 0 {
        return None;
    }
    if path[0] != b'/' {
        return None;
    }
    if path.len() == 1 {
        return Some(0);
    }
    ended(read_behind_slash(kinds, pairs, path))
}

// Whether the bytes, 1 to 255, are a path that has so many names: the number that the reading ends
// with is compared, and no count is made of it.
pub fn has_names(kinds: &[u8], pairs: &[u64], path: &[u8], names: u8) -> bool
    requires tables { Tables kinds.now pairs.now }
    requires in_bounds { (1 ≤ length path.now) × (length path.now ≤ 255) }
    ensures { result ≡ is_names names (count_prims path.now) }
{
    if path[0] != b'/' {
        return false;
    }
    if path.len() == 1 {
        return names == 0;
    }
    let word = read_behind_slash(kinds, pairs, path);
    if word / 64 != (names as u64) {
        return false;
    }
    let end = word % 64;
    if end == 14 {
        return true;
    }
    end == 42
}
