// The lines on paths.
use calls_text::{Output, bad_line, front, is_call, put_refusal, read_short_number, word};
use model::Refusal;
use std::io::Write;

// The answer to a line on paths.
pub fn answer<W: Write>(line: &[u8], out: &mut Output<W>) -> bool {
    if is_call(line, b"path", 2) {
        path_line(line, out);
    } else if is_call(line, b"back", 3) {
        back_line(line, out);
    } else if is_call(line, b"join", 3) {
        join_line(line, out);
    } else {
        return false;
    }
    true
}

// A space, and then the bytes, or `-` where there are none.
fn put_next<W: Write>(out: &mut Output<W>, bytes: &[u8]) {
    out.put(b" ");
    if bytes.is_empty() {
        return out.put(b"-");
    }
    out.put(bytes);
}

// `path PATH`: the prim count, the parent and the last name.
fn path_line<W: Write>(line: &[u8], out: &mut Output<W>) {
    let path = word(line, 1);
    let count = path::prim_count(path);
    match count {
        Some(names) => put_path(out, path, names),
        None => put_refusal(out, Refusal::Path),
    }
}

fn put_path<W: Write>(out: &mut Output<W>, path: &[u8], names: u16) {
    out.put_number(names as u64);
    put_next(out, path::parent(path));
    put_next(out, path::last_name(path));
}

// `back D PATH`: the front part of the path as it was D names ago.
fn back_line<W: Write>(line: &[u8], out: &mut Output<W>) {
    match read_short_number(word(line, 1)) {
        Some(names) => put_back(out, word(line, 2), names),
        None => bad_line(out),
    }
}

fn put_back<W: Write>(out: &mut Output<W>, path: &[u8], depth: u16) {
    if !path::is_well_formed(path) {
        return put_refusal(out, Refusal::Path);
    }
    out.put(path::path_at_intro_depth(path, depth));
}

// `join PATH CHILD`: the path with the child's last name appended.
fn join_line<W: Write>(line: &[u8], out: &mut Output<W>) {
    let mut joined = [0u8; 255];
    let appended = path::append_child_name(word(line, 1), word(line, 2), &mut joined);
    match appended {
        Ok(length) => out.put(front(&joined, length)),
        Err(refusal) => put_refusal(out, refusal),
    }
}
