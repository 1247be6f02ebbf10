// Text put into lent bytes, for this crate alone: each function puts its part from `at` on and
// answers where it ends. Each requires room, which its callers prove.
ghost use Rattle.std.specs.Prelude.{[], ◌∷◌, ◌+◌, ◌≤◌, length};
ghost use Rattle.listing.specs.Texts.{number, Put};

// Puts a byte.
pub(crate) fn put_byte(out: &mut [u8], at: usize, byte: u8) -> usize
    requires { at + 1 ≤ length out.old }
    ensures { Put at (byte ∷ []) out.old result out.new }
{
    big_endian::write_u8(out, at, byte);
    at + 1
}

// Puts all of `bytes`.
pub(crate) fn put_bytes(out: &mut [u8], at: usize, bytes: &[u8]) -> usize
    requires { at + length bytes.now ≤ length out.old }
    ensures { Put at bytes.now out.old result out.new }
{
    big_endian::write_bytes(out, at, bytes);
    at + bytes.len()
}

// Puts a number in decimal: the digits of its tenth, and then its last. It calls itself at most
// nine times, since ten digits hold any number here.
pub(crate) fn put_number(out: &mut [u8], at: usize, n: u32) -> usize
    requires { at + 20 ≤ length out.old }
    ensures { Put at (number n) out.old result out.new }
{
    if n < 10 {
        return put_byte(out, at, b'0' + (n as u8));
    }
    let last = put_number(out, at, n / 10);
    put_byte(out, last, b'0' + (n % 10) as u8)
}
