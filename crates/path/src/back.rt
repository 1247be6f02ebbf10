// Reading a path from its back: where its last name, its parent and its introduction path end. Each
// loop goes over the bytes that it leaves out, so any number of steps up costs one pass.
ghost use Rattle.std.specs.Prelude.{◌≡◌, false, ◌<◌, ◌≤◌, length};
ghost use Rattle.model.specs.Path.{open_brace, before_last, ends_in, name_start, before_name};
ghost use Rattle.model.specs.Path.{parent_length, without_selections, intro_length};

// Whether the first `end` bytes end in `b`.
pub fn ends_in(path: &[u8], end: usize, b: u8) -> bool
    requires { end ≤ length path.now }
    ensures { result ≡ ends_in b path.now end }
{
    if end == 0 {
        return false;
    }
    path[end - 1] == b
}

// Where the last name of the first `end` bytes starts: after the last `/` or `}`.
pub fn name_start(path: &[u8], end: usize) -> usize
    requires { end ≤ length path.now }
    ensures { (result ≡ name_start path.now end) × (result ≤ end) }
{
    for k in (0..end).rev() {
        let b = path[k];
        if b == b'/' {
            return k + 1;
        }
        if b == b'}' {
            return k + 1;
        }
    }
    0
}

// Where the last selection of the first `end` bytes starts: before the last `{`.
fn selection_start(path: &[u8], end: usize) -> usize
    requires { end ≤ length path.now }
    ensures { (result ≡ before_last open_brace path.now end) × (result ≤ end) × (0 < end → result < end) }
{
    for k in (0..end).rev() {
        if path[k] == b'{' {
            return k;
        }
    }
    0
}

// The first `end` bytes without their last name and the slash before it.
fn before_name(path: &[u8], end: usize) -> usize
    requires { end ≤ length path.now }
    ensures { (result ≡ before_name path.now end) × (result ≤ end) }
{
    let start = name_start(path, end);
    if start <= 1 {
        return start;
    }
    if path[start - 1] == b'/' {
        return start - 1;
    }
    start
}

// The first `end` bytes without the selections that end them.
fn without_selections(path: &[u8], end: usize) -> usize
    requires { end ≤ length path.now }
    ensures { (result ≡ without_selections false path.now end) × (result ≤ end) }
{
    let mut k = end;
    while ends_in(path, k, b'}') {
        k = selection_start(path, k);
    }
    k
}

// How much of the path its parent keeps.
pub fn parent_length(path: &[u8]) -> usize
    ensures value { result ≡ parent_length path.now (length path.now) }
    ensures upper_bound { result ≤ length path.now }
{
    let end = path.len();
    if ends_in(path, end, b'}') {
        return selection_start(path, end);
    }
    if end <= 1 {
        return 0;
    }
    before_name(path, end)
}

// How much of the path is left `depth` names up.
pub fn intro_length(path: &[u8], depth: u16) -> usize
    ensures value { result ≡ intro_length depth path.now (length path.now) }
    ensures upper_bound { result ≤ length path.now }
{
    let mut end = path.len();
    for left in (0..depth).rev() {
        let named = without_selections(path, end);
        let next = before_name(path, named);
        if next == end {
            return end;
        }
        end = next;
    }
    end
}
