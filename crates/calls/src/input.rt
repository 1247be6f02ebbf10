// The input, parted into lines, each with its answer in the output.
ghost use Rattle.std.specs.Prelude.{◌≤◌, length};

use crate::lines;
use crate::lines::Arenas;
use calls_text::Output;
use std::io::{Read, Write};

// What is left where a block ends: how many bytes there are of the line that goes on in the next
// one, and the arenas.
#[derive(Drop)]
struct Rest<'a> {
    held: usize,
    arenas: Arenas<'a>,
}

// The longest line that is answered has so many bytes.
const LONGEST: usize = 131072;

// Puts the answer to the first `held` bytes of `line`, with a newline, and hands back the arenas.
fn answer_line<'a, W: Write>(
    line: &[u8],
    held: usize,
    arenas: Arenas<'a>,
    out: &mut Output<W>,
) -> Arenas<'a> {
    let after = if LONGEST < held {
        calls_text::bad_line(out);
        arenas
    } else {
        lines::answer(calls_text::front(line, held), arenas, out)
    };
    out.put(b"\n");
    after
}

// Answers each line that ends in `block`, the first of them begun by `held` bytes in `line`, and
// writes the answers.
fn answer_block<'a, W: Write>(
    block: &[u8],
    line: &mut [u8],
    rest: Rest<'a>,
    out: &mut Output<W>,
) -> Rest<'a> {
    let Rest {
        mut held,
        mut arenas,
    } = rest;
    for part in block.split_inclusive(|byte| *byte == b'\n') {
        let Some(end) = part.strip_suffix(b"\n") else {
            held = command_io::append(line, held, part);
            break;
        };
        held = command_io::append(line, held, end);
        arenas = answer_line(line, held, arenas, out);
        held = 0;
    }
    out.flush();
    Rest { held, arenas }
}

// Reads a part of the input, and answers how many bytes of `block` it takes: 0 where the input has
// ended, or a read fails.
fn read_block<R: Read>(from: &mut R, block: &mut [u8]) -> usize
    ensures { result ≤ length block.new }
{
    match from.read(block) {
        Ok(count) => count,
        Err(_) => 0,
    }
}

// Answers each line that ends in a newline, block by block, until the input ends or a read fails. A
// proved loop has to end, and nothing says that the input does: so its turns are counted, up to a
// number that no run reaches.
fn answer_blocks<'a, R: Read, W: Write>(
    from: &mut R,
    block: &mut [u8],
    line: &mut [u8],
    arenas: Arenas<'a>,
    out: &mut Output<W>,
) -> Rest<'a> {
    let mut rest = Rest { held: 0, arenas };
    for _ in 0..u64::MAX {
        let count = read_block(from, block);
        if count == 0 {
            break;
        }
        rest = answer_block(&block[..count], line, rest, out);
    }
    rest
}

// Answers all of the input, a last line without a newline too. The buffer for a line is as long as
// an arena, since every further length of a large array is dear to check.
pub(crate) fn answer_input<R: Read, W: Write>(from: &mut R, to: &mut W) {
    let mut block = io::large_buffer();
    let mut line = command_io::zeros();
    let mut first = command_io::zeros();
    let mut second = command_io::zeros();
    let mut saved = command_io::zeros();
    let mut buffer = io::large_buffer();
    let arenas = Arenas {
        current: &mut first,
        other: &mut second,
        saved: &mut saved,
    };
    let mut out = Output::new(to, &mut buffer);
    let rest = answer_blocks(from, &mut block, &mut line, arenas, &mut out);
    if 0 < rest.held {
        answer_block(b"\n", &mut line, rest, &mut out);
    }
}
