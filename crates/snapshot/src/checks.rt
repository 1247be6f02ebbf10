// The reader's first two passes: question 12 over all of the bytes, and questions 4 to 7 record by
// record. They write nothing.
ghost use Rattle.std.specs.Prelude.{◌≡◌, ◌||◌, ◌&&◌, ◌≤◌, eqb, ltb, length, drop};
ghost use Rattle.model.specs.Snapshot.{read_record, read_records, read_snapshot};
ghost use Rattle.path.specs.Tables.{Tables};
ghost use Rattle.validate.specs.RecordCheck.{RecordChecked};
ghost use Rattle.snapshot.specs.SnapshotReading.{counted_as, Exact, questions_of, RecordsChecked};

use crate::{fields, record};
use arena::offsets;
use model::Refusal;
use validate::{Before, RecordNumbers};

// The rest of question 12: whether `count` records stand from byte 7 on, each as long as it says,
// and nothing behind them.
fn check_record_lengths(bytes: &[u8], count: u32) -> Result<u32, Refusal>
    requires { 7 ≤ length bytes.now }
    ensures { result ≡ counted_as (read_records count (drop 7 bytes.now)) }
{
    let mut at: usize = 7;
    for _passed in 0..count {
        let Some(length) = fields::take_length(bytes, at) else {
            return Err(Refusal::Snapshot);
        };
        at += 2 + (length as usize);
    }
    if at < bytes.len() {
        return Err(Refusal::Snapshot);
    }
    Ok(count)
}

// Question 12: how many records there are, where version, count and lengths are exact.
pub fn check_lengths(bytes: &[u8]) -> Result<u32, Refusal>
    ensures { result ≡ counted_as (read_snapshot bytes.now) }
{
    let Some(following) = fields::take_u32(bytes, 0) else {
        return Err(Refusal::Snapshot);
    };
    if 4 + (following as usize) != bytes.len() {
        return Err(Refusal::Snapshot);
    }
    let Some(version) = fields::take_u8(bytes, 4) else {
        return Err(Refusal::Snapshot);
    };
    if version != 1 {
        return Err(Refusal::Snapshot);
    }
    let Some(count) = fields::take_u16(bytes, 5) else {
        return Err(Refusal::Snapshot);
    };
    check_record_lengths(bytes, count as u32)
}

// Whether there is a local root, with a node n of this arc more.
fn with_root(has_root: bool, n: u32, arc: u8) -> bool
    ensures { result ≡ (ltb 0 n && eqb arc 0) || has_root }
{
    if n == 0 {
        return has_root;
    }
    if arc == arena::arcs::ROOT {
        return true;
    }
    has_root
}

// Questions 4 to 7 of a record, which take only the numbers that they ask of. A field that is
// missing, which none is, refuses 12.
fn check_one(kinds: &[u8], pairs: &[u64], body: &[u8], before: Before) -> Result<u8, Refusal>
    requires tables { Tables kinds.now pairs.now }
    requires in_bounds { (28 ≤ length body.now) × (before.path_bytes ≤ 32768) }
    ensures { RecordChecked (questions_of before (read_record body.now))
        (read_record body.now).path result }
{
    let Some(arc) = fields::take_u8(body, offsets::ARC) else {
        return Err(Refusal::Snapshot);
    };
    let Some(flags) = fields::take_u8(body, offsets::FLAGS) else {
        return Err(Refusal::Snapshot);
    };
    let Some(parent) = fields::take_u32(body, offsets::PARENT) else {
        return Err(Refusal::Snapshot);
    };
    let Some(origin) = fields::take_u32(body, offsets::ORIGIN) else {
        return Err(Refusal::Snapshot);
    };
    let Some(has_specs) = fields::take_u8(body, offsets::HAS_SPECS) else {
        return Err(Refusal::Snapshot);
    };
    let numbers = RecordNumbers {
        arc: arc,
        flags: flags,
        parent: parent,
        origin: origin,
        has_specs: has_specs,
    };
    let path = &body[offsets::PATH..];
    validate::check_record(
        before,
        numbers,
        path,
        path::prim_count_by(kinds, pairs, path),
    )
}

// Questions 4 to 7, record by record: the first no, or the prim count of each path in `prims`.
pub fn check_records(bytes: &[u8], count: u32, prims: &mut [u8]) -> Result<(), Refusal>
    requires exact { Exact bytes.now count }
    requires prims_len { length prims.old ≡ 1024 }
    ensures { RecordsChecked bytes.now result prims.new }
{
    let kinds = path::rows::kinds();
    let pairs = path::rows::pairs();
    let mut at: usize = 7;
    let mut path_bytes: usize = 0;
    let mut has_root = false;
    for n in 0..count {
        let record = record::record_at(bytes, at);
        let before = Before {
            count: n,
            path_bytes: path_bytes,
            has_root: has_root,
            culled_allowed: true,
        };
        let prim_count = check_one(&kinds, &pairs, record, before)?;
        prims[n as usize] = prim_count;
        has_root = with_root(has_root, n, record[offsets::ARC]);
        path_bytes += record.len() - offsets::PATH;
        at += 2 + record.len();
    }
    Ok(())
}
