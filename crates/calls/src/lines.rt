// The answer to any line, the two arenas that the lines work on, and a third where one of them is
// saved. The lines about more than one arena are here; the others are answered by the crates
// `calls_read` and `calls_write`.
use calls_text::{Output, bad_line, is_call, put_answer, word};
use std::io::Write;

// The arena that the lines are about, the one that `swap` and `seed` put in its place, and the one
// that `save` fills. They are handed on by value: where two of them are lent at once behind a
// reference, no proof was found.
#[derive(Drop)]
pub(crate) struct Arenas<'a> {
    pub(crate) current: &'a mut [u8],
    pub(crate) other: &'a mut [u8],
    pub(crate) saved: &'a mut [u8],
}

impl<'a> Arenas<'a> {
    // All three made to hold the empty graph.
    fn emptied(self) -> Arenas<'a> {
        self.current.fill(0);
        self.other.fill(0);
        self.saved.fill(0);
        self
    }

    fn swapped(self) -> Arenas<'a> {
        Arenas {
            current: self.other,
            other: self.current,
            saved: self.saved,
        }
    }
}

// Copies `from` over `onto`; does nothing where their lengths differ.
fn overwrite(onto: &mut [u8], from: &[u8]) {
    if from.len() == onto.len() {
        onto.copy_from_slice(from);
    }
}

// `seed PATH`: the other arena filled from the current one. It then is the current one, unless the
// call is refused. Built into the loop over the lines, it takes longer for each byte of the path.
#[inline(never)]
fn seed_line<'a, W: Write>(line: &[u8], arenas: Arenas<'a>, out: &mut Output<W>) -> Arenas<'a> {
    let Arenas {
        current,
        other,
        saved,
    } = arenas;
    let seeded = prim_graph::seed_child(current, other, word(line, 1));
    put_answer(out, seeded);
    let after = Arenas {
        current,
        other,
        saved,
    };
    if seeded.is_ok() {
        return after.swapped();
    }
    after
}

// Puts the answer to a line, without a newline, and hands back the arenas as it leaves them.
pub(crate) fn answer<'a, W: Write>(
    line: &[u8],
    arenas: Arenas<'a>,
    out: &mut Output<W>,
) -> Arenas<'a> {
    if is_call(line, b"seed", 2) {
        return seed_line(line, arenas, out);
    }
    if is_call(line, b"new", 1) {
        out.put(b"ok");
        return arenas.emptied();
    }
    if is_call(line, b"swap", 1) {
        out.put(b"ok");
        return arenas.swapped();
    }
    let Arenas {
        current,
        other,
        saved,
    } = arenas;
    answer_saving(line, current, saved, out);
    Arenas {
        current,
        other,
        saved,
    }
}

// `save` and `restore`: the arena copied to the saved one, and back. `rubbish`: bytes that hold no
// graph. Else the answer to a line on the arena alone.
fn answer_saving<W: Write>(line: &[u8], arena: &mut [u8], saved: &mut [u8], out: &mut Output<W>) {
    if is_call(line, b"save", 1) {
        overwrite(saved, arena);
        out.put(b"ok");
    } else if is_call(line, b"restore", 1) {
        overwrite(arena, saved);
        out.put(b"ok");
    } else if is_call(line, b"rubbish", 1) {
        arena.fill(255);
        out.put(b"ok");
    } else {
        answer_on(line, arena, out);
    }
}

// The answer to a line on one arena: none to an empty one. A further kind of line is a row in the
// crate that answers its like.
fn answer_on<W: Write>(line: &[u8], arena: &mut [u8], out: &mut Output<W>) {
    let known = line.is_empty()
        || calls_write::make::answer(line, arena, out)
        || calls_write::change::answer(line, arena, out)
        || calls_read::look::answer(line, arena, out)
        || calls_read::compare::answer(line, arena, out)
        || calls_read::paths::answer(line, out);
    if !known {
        bad_line(out);
    }
}
