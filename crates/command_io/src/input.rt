// The input, read to its end into a lent buffer: short reads are followed by others, and a part of
// the input is never taken for the whole.
ghost use Rattle.std.specs.Prelude.{◌≡◌, IfSome, length};
ghost use Rattle.command_io.specs.declared.input.InputError.TheVariants.{Failed};
ghost use Rattle.command_io.specs.Inputs.{HeldIn, HoldsInput, EndsInput};

use std::io;
use std::io::Read;

// Why no buffer holds all of the input: it is longer than the buffer, or a read failed.
#[derive(Clone, Copy)]
pub enum InputError {
    Long,
    Failed,
}

impl From<io::Error> for InputError {
    ghost from_gives = { λ _ error. error ≡ Failed };

    fn from(_: io::Error) -> InputError {
        InputError::Failed
    }
}

// Whether the input ends behind the `held` bytes that were read.
fn read_end<R: Read>(from: &mut R, held: usize) -> Result<usize, InputError>
    ensures within { HeldIn held result }
    ensures rest { IfSome (R.remaining from.old) (λ rest. EndsInput rest held result) }
{
    let mut more = [0u8; 1];
    match from.read(&mut more)? {
        0 => Ok(held),
        _ => Err(InputError::Long),
    }
}

// Reads the input to its end, and answers how many bytes of the buffer hold it. Each turn reads
// some of it, so the turns end where the buffer does. (The library's `read_to_end` needs a heap.)
pub fn read_input<R: Read>(from: &mut R, bytes: &mut [u8]) -> Result<usize, InputError>
    ensures within { HeldIn (length bytes.old) result }
    ensures whole { IfSome (R.remaining from.old) (λ xs. HoldsInput xs (length bytes.old) bytes.new result) }
{
    let mut held: usize = 0;
    while held < bytes.len() {
        match from.read(&mut bytes[held..])? {
            0 => return Ok(held),
            count => held += count,
        }
    }
    read_end(from, held)
}
