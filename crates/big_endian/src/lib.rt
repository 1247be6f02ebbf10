// Big-endian numbers of one, two and four bytes, and runs of bytes, read and written at a place in
// lent bytes. Each function requires that the place is within, which its callers prove, so nothing
// here refuses. What is read is `field` of model/specs/Snapshot.antt and what is written `stored`
// of model/specs/Bytes.antt; laws/proofs/StoredLaws.antt has the laws of both, at any width.
#![tactic(auto)]

ghost use Rattle.std.specs.Prelude.{◌≡◌, ◌+◌, ◌≤◌, length};
ghost use Rattle.model.specs.Snapshot.{big_endian, field};
ghost use Rattle.model.specs.Bytes.{stored};

// The byte at `at`.
pub fn read_u8(bytes: &[u8], at: usize) -> u8
    requires { at + 1 ≤ length bytes.now }
    ensures { result ≡ field at 1 bytes.now }
{
    bytes[at]
}

// The number in the two bytes from `at` on.
pub fn read_u16(bytes: &[u8], at: usize) -> u16
    requires { at + 2 ≤ length bytes.now }
    ensures { result ≡ field at 2 bytes.now }
{
    u16::from_be_bytes([bytes[at], bytes[at + 1]])
}

// The number in the four bytes from `at` on.
pub fn read_u32(bytes: &[u8], at: usize) -> u32
    requires { at + 4 ≤ length bytes.now }
    ensures { result ≡ field at 4 bytes.now }
{
    u32::from_be_bytes([bytes[at], bytes[at + 1], bytes[at + 2], bytes[at + 3]])
}

// Stores the byte at `at`.
pub fn write_u8(out: &mut [u8], at: usize, x: u8)
    requires { at + 1 ≤ length out.old }
    ensures { out.new ≡ stored at (big_endian 1 x) out.old }
{
    out[at] = x;
}

// Stores the number in the two bytes from `at` on.
pub fn write_u16(out: &mut [u8], at: usize, x: u16)
    requires { at + 2 ≤ length out.old }
    ensures { out.new ≡ stored at (big_endian 2 x) out.old }
{
    write_bytes(out, at, &x.to_be_bytes());
}

// Stores the number in the four bytes from `at` on.
pub fn write_u32(out: &mut [u8], at: usize, x: u32)
    requires { at + 4 ≤ length out.old }
    ensures { out.new ≡ stored at (big_endian 4 x) out.old }
{
    write_bytes(out, at, &x.to_be_bytes());
}

// Stores all of `src` from `at` on.
pub fn write_bytes(out: &mut [u8], at: usize, src: &[u8])
    requires { at + length src.now ≤ length out.old }
    ensures { out.new ≡ stored at src.now out.old }
{
    out[at..at + src.len()].copy_from_slice(src);
}
