// The answers that every kind of line shares.
use crate::output::{Output, front};
use model::{NodeId, Refusal};
use std::cmp::Ordering;
use std::io::Write;

// What a call gives, and how it is put.
pub trait Answer {
    fn put<W: Write>(self, out: &mut Output<W>);
}

// Nothing is given: `ok`.
impl Answer for () {
    fn put<W: Write>(self, out: &mut Output<W>) {
        out.put(b"ok");
    }
}

impl Answer for u32 {
    fn put<W: Write>(self, out: &mut Output<W>) {
        out.put_number(self as u64);
    }
}

// 1 for yes and 0 for no.
impl Answer for bool {
    fn put<W: Write>(self, out: &mut Output<W>) {
        out.put_number(self as u64);
    }
}

// A node's number, `-` for none.
impl Answer for Option<NodeId> {
    fn put<W: Write>(self, out: &mut Output<W>) {
        match self {
            Some(node) => out.put_number(node.0 as u64),
            None => out.put(b"-"),
        }
    }
}

impl Answer for Ordering {
    fn put<W: Write>(self, out: &mut Output<W>) {
        match self {
            Ordering::Less => out.put(b"Less"),
            Ordering::Equal => out.put(b"Equal"),
            Ordering::Greater => out.put(b"Greater"),
        }
    }
}

// The answer to a call.
pub fn put_answer<T: Answer, W: Write>(out: &mut Output<W>, answer: Result<T, Refusal>) {
    match answer {
        Ok(value) => value.put(out),
        Err(refusal) => put_refusal(out, refusal),
    }
}

// The answer to a call that was refused.
pub fn put_refusal<W: Write>(out: &mut Output<W>, refusal: Refusal) {
    out.put(b"refused ");
    out.put_number(refusal.number() as u64);
}

// The answer to a call that put a path at the front of `path`.
pub fn put_path<W: Write>(out: &mut Output<W>, answer: Result<u32, Refusal>, path: &[u8]) {
    match answer {
        Ok(length) => out.put(front(path, length as usize)),
        Err(refusal) => put_refusal(out, refusal),
    }
}

// The answer to a line that is no call.
pub fn bad_line<W: Write>(out: &mut Output<W>) {
    out.put(b"bad line");
}
