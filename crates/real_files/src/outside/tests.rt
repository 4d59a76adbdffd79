use crate::outside::{read_front, write_each};
use std::alloc::AllocError;
use std::io::{self, ErrorKind, Read, Write};
use std::test::*;

/// A reader that is interrupted in each second call and gives one byte in the others, and fails after its bytes
/// where it is to.
#[derive(Drop)]
struct Slow<'a> {
    bytes: &'a [u8],
    fails: bool,
    is_interrupted: bool,
}

impl<'a> Read for Slow<'a> {
    fn read(&mut self, buf: &mut [u8]) -> io::Result<usize> {
        self.is_interrupted = !self.is_interrupted;
        if self.is_interrupted {
            return Err(io::Error::from(ErrorKind::Interrupted));
        }
        if self.bytes.is_empty() && self.fails {
            return Err(io::Error::from(ErrorKind::BrokenPipe));
        }
        if self.bytes.is_empty() || buf.is_empty() {
            return Ok(0);
        }
        buf[0] = self.bytes[0];
        self.bytes = &self.bytes[1..];
        Ok(1)
    }
}

/// A writer that is interrupted in each second call and takes one byte in the others, up to so many.
#[derive(Drop)]
struct Narrow {
    taken: Vec<u8>,
    most: usize,
    is_interrupted: bool,
}

impl Write for Narrow {
    fn write(&mut self, buf: &[u8]) -> io::Result<usize> {
        self.is_interrupted = !self.is_interrupted;
        if self.is_interrupted {
            return Err(io::Error::from(ErrorKind::Interrupted));
        }
        if buf.is_empty() || self.taken.len() >= self.most {
            return Ok(0);
        }
        self.taken.push(buf[0])?;
        Ok(1)
    }

    fn flush(&mut self) -> io::Result<()> {
        Ok(())
    }
}

#[test]
fn reads_go_on_after_interruptions(rt: HostRuntime) -> Result<(), Fail> {
    let rows: [(u64, &[u8]); 4] = [(0, b""), (4, b"abcd"), (6, b"abcdef"), (9, b"abcdef")];
    for (most, front) in rows {
        let mut from = Slow {
            bytes: b"abcdef",
            fails: false,
            is_interrupted: false,
        };
        let read = read_front(&mut from, rt.alloc(), most)?;
        assert!(rt; read.as_slice() == front, "{most}");
    }
    Ok(())
}

#[test]
fn a_failed_read_is_the_answer(rt: HostRuntime) {
    let mut from = Slow {
        bytes: b"abc",
        fails: true,
        is_interrupted: false,
    };
    let kind = match read_front(&mut from, rt.alloc(), 9) {
        Ok(_) => None,
        Err(error) => Some(error.kind()),
    };
    assert!(rt; kind == Some(ErrorKind::BrokenPipe));
}

#[test]
fn writes_go_on_after_interruptions(rt: HostRuntime) {
    let rows: [(usize, &[u8], bool); 3] = [
        (9, b"abcdef", true),
        (6, b"abcdef", true),
        (4, b"abcd", false),
    ];
    for (most, taken, is_whole) in rows {
        let mut to = Narrow {
            taken: Vec::new(rt.alloc()),
            most,
            is_interrupted: false,
        };
        assert!(rt;
            write_each(&mut to, b"abcdef").is_ok() == is_whole,
            "{most}"
        );
        assert!(rt; to.taken.as_slice() == taken, "{most}");
    }
}
