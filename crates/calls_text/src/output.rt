// The output. Bytes wait in a buffer until they would pass its end or a block of input is answered:
// so a file is answered in few writes, and a person at once. They are written to `to`, standard
// output in the command. A write that fails goes unnoticed.
ghost use Rattle.std.specs.Prelude.{◌≤◌, length};

use std::io::Write;

// The first `used` bytes of `buffer` wait.
#[derive(Drop)]
pub struct Output<'a, W> {
    to: &'a mut W,
    buffer: &'a mut [u8],
    used: usize,
    ghost within: { used ≤ length buffer.now },
}

impl<'a, W: Write> Output<'a, W> {
    pub fn new(to: &'a mut W, buffer: &'a mut [u8]) -> Output<'a, W> {
        Output {
            to,
            buffer,
            used: 0,
        }
    }

    // Writes the bytes that wait.
    pub fn flush(&mut self) {
        let _ = self.to.write_all(&self.buffer[..self.used]);
        self.used = 0;
    }

    // Puts `bytes` after those that wait, or at the front, once those are written, where they leave
    // too little room. Bytes that the whole buffer cannot hold are written at once.
    pub fn put(&mut self, bytes: &[u8]) {
        if self.buffer.len() - self.used < bytes.len() {
            self.flush();
        }
        if self.buffer.len() - self.used < bytes.len() {
            let _ = self.to.write_all(bytes);
            return;
        }
        let end = self.used + bytes.len();
        self.buffer[self.used..end].copy_from_slice(bytes);
        self.used = end;
    }

    // Puts each pair; where there is room for all of them, at once.
    pub(crate) fn put_pairs(&mut self, pairs: &[[u8; 2]]) {
        let bytes = pairs.as_flattened();
        if bytes.len() <= self.buffer.len() - self.used {
            return self.put(bytes);
        }
        for pair in pairs {
            self.put(pair);
        }
    }

    // Puts a number in decimal. (`write!` would need `Output` to be a writer.)
    pub fn put_number(&mut self, number: u64) {
        let mut digits = [0u8; 20];
        let count = io::decimal(number, &mut digits);
        self.put(&digits[..count]);
    }

    // Puts what parts an item from those before it: nothing where it is the first.
    pub fn put_between(&mut self, before: usize, between: &[u8]) {
        if before != 0 {
            self.put(between);
        }
    }
}

// The first `most` bytes; all of them where there are fewer.
pub fn front(bytes: &[u8], most: usize) -> &[u8] {
    &bytes[..most.min(bytes.len())]
}
