// The fields of a snapshot, by their width. Each read answers the field, or `None` where the bytes
// end before it does. There are three reads, since their numbers differ in type: one read over a
// trait of the widths would be longer than these.
ghost use Rattle.std.specs.Prelude.{◌≡◌, ◌≤◌, length};
ghost use Rattle.snapshot.specs.SnapshotReading.{field_at, length_at};

// The byte at `at`.
pub fn take_u8(bytes: &[u8], at: usize) -> Option<u8>
    requires { at ≤ length bytes.now }
    ensures { result ≡ field_at at 1 bytes.now }
{
    if bytes.len() - at < 1 {
        return None;
    }
    Some(big_endian::read_u8(bytes, at))
}

// The number in the two bytes from `at` on.
pub fn take_u16(bytes: &[u8], at: usize) -> Option<u16>
    requires { at ≤ length bytes.now }
    ensures { result ≡ field_at at 2 bytes.now }
{
    if bytes.len() - at < 2 {
        return None;
    }
    Some(big_endian::read_u16(bytes, at))
}

// The number in the four bytes from `at` on.
pub fn take_u32(bytes: &[u8], at: usize) -> Option<u32>
    requires { at ≤ length bytes.now }
    ensures { result ≡ field_at at 4 bytes.now }
{
    if bytes.len() - at < 4 {
        return None;
    }
    Some(big_endian::read_u32(bytes, at))
}

// The length of the record at `at`, with all of that record behind it.
pub(crate) fn take_length(bytes: &[u8], at: usize) -> Option<u16>
    requires { at ≤ length bytes.now }
    ensures { result ≡ length_at at bytes.now }
{
    let length = take_u16(bytes, at)?;
    if length < arena::LEAST_RECORD_BYTES {
        return None;
    }
    if arena::MOST_RECORD_BYTES < length {
        return None;
    }
    if bytes.len() - at < 2 + (length as usize) {
        return None;
    }
    Some(length)
}
