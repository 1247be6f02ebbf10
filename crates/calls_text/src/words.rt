// The words of a line, parted by single spaces, and the numbers among them.
ghost use Rattle.std.specs.Prelude.{◌≡◌, ◌≢◌, ℕ, ◌<◌, ◌≤◌, length, slice_index};

// Whether the word is `-`, which stands for what is missing.
pub fn is_dash(word: &[u8]) -> bool {
    word == b"-".as_slice()
}

// The place of the first `byte` from `from` on; the end of `bytes` where there is none.
pub fn find(bytes: &[u8], from: usize, byte: u8) -> usize
    ensures start { from ≤ length bytes.now → from ≤ result }
    ensures end { result ≤ length bytes.now }
    ensures first { (k : ℕ) → from ≤ k → k < result → slice_index bytes.now k ≢ byte }
    ensures found { result < length bytes.now → slice_index bytes.now result ≡ byte }
{
    for i in from..bytes.len() {
        if bytes[i] == byte {
            return i;
        }
    }
    bytes.len()
}

// Whether `name` stands at the line's front, with a space or nothing after it. Each line is asked
// for one name after the other, and `strip_prefix` would be a call of the library for each.
fn begins(line: &[u8], name: &[u8]) -> bool {
    if line.len() < name.len() {
        return false;
    }
    let (front, rest) = line.split_at(name.len());
    front.iter().zip(name).all(|(a, b)| a == b) && (rest.is_empty() || rest[0] == b' ')
}

// Whether the line has so many words and none of them is empty. One is where the line begins or ends
// in a space, or has two in a row. The bytes are gone over one by one, with `at` where the word at
// hand starts: `split` has more to do for each word, and most words are short.
fn has_words(line: &[u8], words: usize) -> bool {
    let mut left = words;
    let mut at: usize = 0;
    for (i, byte) in line.iter().enumerate() {
        if *byte == b' ' {
            if i == at || left < 2 {
                return false;
            }
            at = i + 1;
            left -= 1;
        }
    }
    at < line.len() && left == 1
}

// Whether the line's first word is `name`, and it has `words` words, none of them empty.
pub fn is_call(line: &[u8], name: &[u8], words: usize) -> bool {
    begins(line, name) && has_words(line, words)
}

// Where the word with `before` words before it starts: the line's end where there are fewer.
fn start(line: &[u8], before: usize) -> usize
    ensures { result ≤ length line.now }
{
    let mut at: usize = 0;
    for _ in 0..before {
        let end = find(line, at, b' ');
        if end == line.len() {
            return end;
        }
        at = end + 1;
    }
    at
}

// The word with `before` words before it: no bytes where there are fewer.
pub fn word(line: &[u8], before: usize) -> &[u8] {
    let at = start(line, before);
    let end = find(line, at, b' ');
    &line[at..end]
}

// The number whose digits are those of `value` and then `digit`: none past 32 bits.
fn with_digit(value: u32, digit: u8) -> Option<u32> {
    if !digit.is_ascii_digit() {
        return None;
    }
    value.checked_mul(10)?.checked_add((digit - b'0') as u32)
}

// The number that a word of decimal digits spells, with zeros in front or without.
pub fn read_number(word: &[u8]) -> Option<u32> {
    if word.is_empty() {
        return None;
    }
    let mut value: u32 = 0;
    for digit in word {
        value = with_digit(value, *digit)?;
    }
    Some(value)
}

// As `read_number`, of 16 bits.
pub fn read_short_number(word: &[u8]) -> Option<u16> {
    u16::try_from(read_number(word)?).ok()
}
