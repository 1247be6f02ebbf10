// Paths on lent bytes: whether they are well formed, their prim count, parent, last name and
// introduction path, equality, and appending a child's name. A layer below the library, and not
// open to others: the calls put question 5 before they ask for a part of a path. No function has a
// `requires` on a path: on bytes that are none each answers what its definition gives for them.
// Only `append_child_name` copies; every other path handed back is a part of the caller's. The
// definitions are in model/specs/Path.antt.
// scan.rt reads one path from its front, tables.rt many by tables (rows.rt), back.rt from its end;
// join.rt writes one with a name appended.
#![tactic(auto)]

pub mod back;
pub mod join;
mod joining;
pub mod rows;
pub mod scan;
pub mod tables;

ghost use Rattle.std.specs.Prelude.{◌≡◌, ◌<◌};
ghost use Rattle.path.specs.Tables.{Tables};
ghost use Rattle.model.specs.Path.{well_formed, count_prims, parent, last_name, append_child_name};
ghost use Rattle.model.specs.Path.{written, path_at_intro_depth, same_path};

use model::Refusal;

// How many names the path has, or that the bytes are no path.
pub fn prim_count(path: &[u8]) -> Option<u16>
    ensures { result ≡ count_prims path.now }
{
    if 255 < path.len() {
        return None;
    }
    crate::scan::read_path(path)
}

// The same, by the tables of tables.rt, which the caller makes once for many paths.
pub fn prim_count_by(kinds: &[u8], pairs: &[u64], path: &[u8]) -> Option<u16>
    requires { Tables kinds.now pairs.now }
    ensures { result ≡ count_prims path.now }
{
    let length = path.len();
    if 255 < length {
        return None;
    }
    crate::tables::read_path(kinds, pairs, path)
}

// Whether the bytes are a path (question 5).
pub fn is_well_formed(path: &[u8]) -> bool
    ensures { result ≡ well_formed path.now }
{
    prim_count(path).is_some()
}

// The parent, as a front part of the path: no bytes where there is none.
pub fn parent(path: &[u8]) -> &[u8]
    ensures { result.now ≡ parent path.now }
{
    let end = crate::back::parent_length(path);
    &path[..end]
}

// The name that ends the path: no bytes where it ends in a selection or is `/`.
pub fn last_name(path: &[u8]) -> &[u8]
    ensures { result.now ≡ last_name path.now }
{
    let start = crate::back::name_start(path, path.len());
    &path[start..]
}

// The front part of the path as it was `depth` names ago, selections included; `/` where it had
// fewer.
pub fn path_at_intro_depth(path: &[u8], depth: u16) -> &[u8]
    ensures { result.now ≡ path_at_intro_depth depth path.now }
{
    let end = crate::back::intro_length(path, depth);
    &path[..end]
}

// Whether two paths are the same bytes.
pub fn same_path(a: &[u8], b: &[u8]) -> bool
    ensures { result ≡ same_path a.now b.now }
{
    a == b
}

// Writes the path with the child's last name appended to the front of `out` and answers its length.
// Refused 1 unless `out` has 255 bytes, 5 where either is no path or the child's ends in no name, 7
// where the new path passes 255 bytes; a refusal leaves `out` as it was.
pub fn append_child_name(path: &[u8], child: &[u8], out: &mut [u8]) -> Result<usize, Refusal>
    ensures value { result ≡ append_child_name path.now child.now out.old }
    ensures out_after { out.new ≡ written result path.now child.now out.old }
{
    if out.len() != 255 {
        return Err(Refusal::Size);
    }
    if !joining::can_join(path, child) {
        return Err(Refusal::Path);
    }
    let name = last_name(child);
    let at = crate::join::joint(path);
    let end = at + name.len();
    if 255 < end {
        return Err(Refusal::Capacity);
    }
    crate::join::put_joined(path, name, at, out);
    Ok(end)
}
