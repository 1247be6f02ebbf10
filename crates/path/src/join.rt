// A path with a name appended: where the name goes, and the bytes. It decides nothing: whether the
// bytes are a path and a name, and whether the new path fits, its callers ask. The definition is
// `append_name` of model/specs/Path.antt.
ghost use Rattle.std.specs.Prelude.{◌≡◌, ◌++◌, ◌+◌, ◌<◌, ◌≤◌, length, drop};
ghost use Rattle.model.specs.Path.{separator, append_name};

use crate::back::ends_in;

// Where a name appended to the path starts: after a slash that is put between, except after `/` or
// `}`.
pub fn joint(path: &[u8]) -> usize
    ensures { result ≡ length path.now + length (separator path.now) }
{
    let end = path.len();
    if ends_in(path, end, b'/') {
        return end;
    }
    if ends_in(path, end, b'}') {
        return end;
    }
    end + 1
}

// Writes the path with the name appended, which starts at `at`. The slash is written where the name
// may come over it.
pub fn put_joined(path: &[u8], name: &[u8], at: usize, out: &mut [u8])
    requires { (at ≡ length path.now + length (separator path.now))
        × (0 < length name.now) × (at + length name.now ≤ length out.old) }
    ensures { out.new ≡ append_name path.now name.now
        ++ drop (at + length name.now) out.old }
{
    big_endian::write_bytes(out, 0, path);
    out[path.len()] = b'/';
    big_endian::write_bytes(out, at, name);
}
