// A read that fails, and a write: what no clause says of them.
use super::{InputError, print, print_refusal, read_input};
use model::Refusal;
use std::io;
use std::io::{ErrorKind, Read, Write};
use std::test::Fail;

// Gives one byte, and then fails.
#[derive(Clone, Copy)]
struct Broken {
    given: bool,
}

impl Read for Broken {
    fn read(&mut self, buf: &mut [u8]) -> io::Result<usize> {
        if self.given || buf.is_empty() {
            return Err(io::Error::from(ErrorKind::Other));
        }
        self.given = true;
        buf[0] = 7;
        Ok(1)
    }
}

// Takes nothing.
#[derive(Clone, Copy)]
struct Full;

impl Write for Full {
    fn write(&mut self, _buf: &[u8]) -> io::Result<usize> {
        Err(io::Error::from(ErrorKind::Other))
    }

    fn flush(&mut self) -> io::Result<()> {
        Ok(())
    }
}

#[test]
fn a_read_that_fails_is_no_end(rt: HostRuntime) -> Result<(), Fail> {
    let mut bytes = [0u8; 4];
    let input = read_input(&mut Broken { given: false }, &mut bytes);
    assert!(rt; matches!(input, Err(InputError::Failed)));
    let whole = read_input(&mut b"abc".as_slice(), &mut bytes);
    assert!(rt; matches!(whole, Ok(3)));
    Ok(())
}

#[test]
fn what_cannot_be_written_is_told(rt: HostRuntime) -> Result<(), Fail> {
    let mut err = Vec::new(rt.alloc());
    print(&mut Full, &mut err, b"order", b"text");
    let told = b"order: standard output cannot be written\n";
    assert_eq!(rt; err.as_slice(), told.as_slice());
    Ok(())
}

#[test]
fn a_refusal_is_a_line(rt: HostRuntime) -> Result<(), Fail> {
    let mut out = Vec::new(rt.alloc());
    let mut err = Vec::new(rt.alloc());
    print_refusal(&mut out, &mut err, b"order", Refusal::Snapshot);
    assert_eq!(rt; out.as_slice(), b"refused 12\n".as_slice());
    assert_eq!(rt; err.len(), 0);
    Ok(())
}
