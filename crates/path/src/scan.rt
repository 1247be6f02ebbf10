// Reading a path from its front, in runs: a name, a set or a selection is passed over by one loop
// that stays in it while its bytes come. specs/PathReading.antt has what its functions promise each
// other.
ghost use Rattle.std.specs.Prelude.{◌≡◌, true, false, ◌+◌, ◌<◌, ◌≤◌, length, drop};
ghost use Rattle.model.specs.Path.{start, slash, name, between, is_name_start, is_word_byte};
ghost use Rattle.path.specs.PathReading.{Run, Stops, NameRead, SelectionRead, ElementRead, reading};
ghost use Rattle.path.specs.PathReading.{in_run, standing, begins_name, stands_at};

// What stands between two places of a path, and where it ends: a name, with its slash where it has
// one, or a selection.
#[derive(Clone, Copy)]
pub enum Element {
    Name(usize),
    Selection(usize),
}

// The tests are its own: with std's of letters and digits a long path takes a third longer to read.
fn within(low: u8, high: u8, b: u8) -> bool
    ensures { result ≡ between low high b }
{
    if low <= b {
        return b <= high;
    }
    false
}

fn is_name_start(b: u8) -> bool
    ensures { result ≡ is_name_start b }
{
    if within(b'a', b'z', b) {
        return true;
    }
    if within(b'A', b'Z', b) {
        return true;
    }
    b == b'_'
}

fn is_word_byte(b: u8) -> bool
    ensures { result ≡ is_word_byte b }
{
    if is_name_start(b) {
        return true;
    }
    within(b'0', b'9', b)
}

// Whether the byte may stand in a selection, or else in a name or a set.
fn in_run(b: u8, selection: bool) -> bool
    ensures { result ≡ in_run selection b }
{
    if is_word_byte(b) {
        return true;
    }
    if !selection {
        return false;
    }
    if b == b'-' {
        return true;
    }
    b == b'|'
}

// Where the run of such bytes from `at` ends.
fn run_end(path: &[u8], at: usize, selection: bool) -> usize
    requires { at ≤ length path.now }
    ensures { Run (in_run selection) path.now at result }
{
    for i in at..path.len() {
        if !in_run(path[i], selection) {
            return i;
        }
    }
    path.len()
}

// Whether a name or a set begins at `at`.
fn name_begins(path: &[u8], at: usize) -> bool
    ensures { result ≡ begins_name path.now at }
{
    if at < path.len() {
        return is_name_start(path[at]);
    }
    false
}

// Whether `b` stands at `at`.
fn stands(path: &[u8], at: usize, b: u8) -> bool
    ensures { result ≡ stands_at path.now at b }
{
    if at < path.len() {
        return path[at] == b;
    }
    false
}

// Where the name that begins at `at` ends, or None where it is malformed.
fn read_name(path: &[u8], at: usize) -> Option<usize>
    ensures { NameRead path.now slash at result }
{
    if !name_begins(path, at) {
        return None;
    }
    Some(run_end(path, at + 1, false))
}

// The same of the selection, which may be empty, whose set begins at `at`, with its closing brace.
fn read_selection(path: &[u8], at: usize) -> Option<usize>
    ensures { SelectionRead path.now at result }
{
    if !name_begins(path, at) {
        return None;
    }
    let sign = run_end(path, at + 1, false);
    if !stands(path, sign, b'=') {
        return None;
    }
    let first = sign + 1;
    let last = run_end(path, first, true);
    if !stands(path, last, b'}') {
        return None;
    }
    Some(last + 1)
}

// What stands at `at`, straight after a selection or after a name, or None where it is malformed.
fn read_element(path: &[u8], at: usize, selected: bool) -> Option<Element>
    requires at_in_bounds { at < length path.now }
    requires stops { selected ≡ false → Stops path.now at }
    ensures { ElementRead path.now (standing selected) at result }
{
    let b = path[at];
    if b == b'{' {
        return Some(Element::Selection(read_selection(path, at + 1)?));
    }
    if selected {
        return Some(Element::Name(read_name(path, at)?));
    }
    if b == b'/' {
        return Some(Element::Name(read_name(path, at + 1)?));
    }
    None
}

// What follows the first name, which ends at `from`.
fn read_elements(path: &[u8], from: usize) -> Option<u16>
    requires from_nonzero { (0 < from) × (from ≤ length path.now) × (length path.now ≤ 255) }
    requires stops { Stops path.now from }
    ensures { result ≡ reading name 1 (drop from path.now) }
{
    let mut at = from;
    let mut names: u16 = 1;
    let mut selected = false;
    while at < path.len() {
        let element = read_element(path, at, selected)?;
        match element {
            Element::Name(end) => {
                at = end;
                names += 1;
                selected = false;
            }
            Element::Selection(end) => {
                at = end;
                selected = true;
            }
        }
    }
    Some(names)
}

// How many names the path has, or that the bytes are no path, where they are at most 255.
pub fn read_path(path: &[u8]) -> Option<u16>
    requires { length path.now ≤ 255 }
    ensures { result ≡ reading start 0 path.now }
{
    if path.len() == 0 {
        return None;
    }
    if path[0] != b'/' {
        return None;
    }
    if path.len() == 1 {
        return Some(0);
    }
    let end = read_name(path, 1)?;
    read_elements(path, end)
}
