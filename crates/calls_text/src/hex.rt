// Bytes as pairs of hexadecimal digits, in lower case.
ghost use Rattle.std.specs.Prelude.{IfSome, ◌<◌};

use crate::output::Output;
use std::io::Write;

// The number of a digit.
fn digit(byte: u8) -> Option<u8>
    ensures { IfSome result (λ number. number < 16) }
{
    match byte {
        b'0'..=b'9' => Some(byte - b'0'),
        b'a'..=b'f' => Some(byte - b'a' + 10),
        _ => None,
    }
}

// The byte of two digits.
fn pair(high: u8, low: u8) -> Option<u8> {
    Some(digit(high)? * 16 + digit(low)?)
}

// Puts the bytes that the word spells at the front of `bytes`, and answers how many they are; none
// where the word is not of pairs, or of more than `bytes` has room for. What `bytes` then holds is
// left free.
pub fn read_bytes(word: &[u8], bytes: &mut [u8]) -> Option<usize> {
    let (pairs, rest) = word.as_chunks::<2>();
    if !rest.is_empty() || bytes.len() < pairs.len() {
        return None;
    }
    for ([high, low], byte) in pairs.iter().zip(bytes) {
        *byte = pair(*high, *low)?;
    }
    Some(pairs.len())
}

// The digit of a number below 16.
fn letter(number: u8) -> u8 {
    match number {
        0..=9 => b'0' + number,
        10..=15 => b'a' - 10 + number,
        _ => b'-',
    }
}

// Puts two digits for each byte. They are gathered first: one by one, most of the time goes to the
// output's fields.
pub fn put_bytes<W: Write>(out: &mut Output<W>, bytes: &[u8]) {
    for part in bytes.chunks(64) {
        let mut digits = [[0u8; 2]; 64];
        for (pair, byte) in digits.iter_mut().zip(part) {
            *pair = [letter(byte / 16), letter(byte % 16)];
        }
        out.put_pairs(&digits[..part.len().min(64)]);
    }
}
