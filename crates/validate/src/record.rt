// The check of one record: questions 4 to 7 of document 01, in that order. The reader of snapshots
// and adding ask it whole, the check of an arena in parts. It reads the record's numbers and its
// path, and of the graph before it only how many nodes and path bytes it has and whether it has a
// local root. specs/RecordCheck.antt has the questions; proofs/RecordCheckLaws.antt says that they
// are those of model/specs/Refusals.antt.
ghost use Rattle.std.specs.Prelude.{◌≡◌, ◌≤◌};
ghost use Rattle.model.specs.Path.{count_prims};
ghost use Rattle.model.specs.Node.{has_flag, with_flag, inert_flag, culled_flag};
ghost use Rattle.validate.specs.RecordCheck.{root_at, links_at, root_kind_at, kind_at};
ghost use Rattle.validate.specs.RecordCheck.{room_at, questions_at, RecordChecked};

use model::Refusal;

// The numbers of a record that its questions read.
#[derive(Clone, Copy)]
pub struct RecordNumbers {
    pub arc: u8,
    pub flags: u8,
    pub parent: u32,
    pub origin: u32,
    pub has_specs: u8,
}

// What comes before a record, and whether CULLED may be set in it: a culled node may be read but
// not added.
#[derive(Clone, Copy)]
pub struct Before {
    pub count: u32,
    pub path_bytes: usize,
    pub has_root: bool,
    pub culled_allowed: bool,
}

// Whether the flag INERT is set.
pub fn is_inert(flags: u8) -> bool
    ensures { result ≡ has_flag inert_flag flags }
{
    flags % 2 == 1
}

// Whether the flag CULLED is set.
pub fn is_culled(flags: u8) -> bool
    ensures { result ≡ has_flag culled_flag flags }
{
    flags / 2 % 2 == 1
}

// The flags with CULLED set.
pub fn with_culled(flags: u8) -> u8
    ensures { result ≡ with_flag culled_flag flags }
{
    if is_culled(flags) {
        return flags;
    }
    flags + 2
}

// Whether these are the numbers of node 0.
fn is_root(numbers: RecordNumbers) -> bool
    ensures { result ≡ root_at numbers }
{
    if numbers.arc != arena::arcs::ROOT {
        return false;
    }
    if !is_inert(numbers.flags) {
        return false;
    }
    if numbers.parent != arena::NO_NODE {
        return false;
    }
    numbers.origin == arena::NO_NODE
}

// Question 4: node 0 is as it must be, and another node's parent and origin are lower.
pub fn links_allowed(before: Before, numbers: RecordNumbers) -> bool
    ensures { result ≡ links_at before numbers }
{
    if before.count == 0 {
        return is_root(numbers);
    }
    if numbers.parent >= before.count {
        return false;
    }
    numbers.origin < before.count
}

// Arc Root is for node 0 and for one child of it, and neither is culled.
fn root_allowed(before: Before, numbers: RecordNumbers) -> bool
    ensures { result ≡ root_kind_at before numbers }
{
    if is_culled(numbers.flags) {
        return false;
    }
    if before.count == 0 {
        return true;
    }
    if numbers.parent != 0 {
        return false;
    }
    !before.has_root
}

// Question 6: arc, has-specs and CULLED.
pub fn kind_allowed(before: Before, numbers: RecordNumbers) -> bool
    ensures { result ≡ kind_at before numbers }
{
    if numbers.arc > arena::arcs::SPECIALIZE {
        return false;
    }
    if numbers.has_specs > 1 {
        return false;
    }
    if numbers.arc == arena::arcs::ROOT {
        return root_allowed(before, numbers);
    }
    if before.culled_allowed {
        return true;
    }
    !is_culled(numbers.flags)
}

// Question 7: another node and its path bytes still fit.
fn has_room(before: Before, path_length: usize) -> bool
    requires { before.path_bytes ≤ 32768 }
    ensures { result ≡ room_at before path_length }
{
    if before.count >= arena::MAX_NODES {
        return false;
    }
    path_length <= arena::MAX_PATH_BYTES - before.path_bytes
}

// A well-formed path has at most 127 names.
fn narrow(names: u16) -> u8
    requires { names ≤ 255 }
    ensures { result ≡ names }
{
    names as u8
}

// The first question that the answer to is no, of a record with these numbers and this path; or its
// prim count. `read` is what its path was read as: how it is read is the caller's choice.
pub fn check_record(
    before: Before,
    numbers: RecordNumbers,
    path: &[u8],
    read: Option<u16>,
) -> Result<u8, Refusal>
    requires { (before.path_bytes ≤ 32768) × (read ≡ count_prims path.now) }
    ensures { RecordChecked (questions_at before numbers path.now) path.now result }
{
    if !links_allowed(before, numbers) {
        return Err(Refusal::Node);
    }
    let Some(names) = read else {
        return Err(Refusal::Path);
    };
    if !kind_allowed(before, numbers) {
        return Err(Refusal::Kind);
    }
    if !has_room(before, path.len()) {
        return Err(Refusal::Capacity);
    }
    Ok(narrow(names))
}
