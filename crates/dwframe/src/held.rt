//! What people are told beside the one line of a failure.

use std::io::{self, Write};

// How many bytes a line has that is looked at, or fewer.
const MOST: usize = 64;

// What each of them takes or is.
const VALUES: [(&str, &str); 8] = [
    ("--size", "takes 4 or 8"),
    ("--order", "takes little or big"),
    ("--default", "takes same or undefined"),
    ("--cap", "takes a decimal number up to 2147483647"),
    ("--steps", "takes a decimal number"),
    (
        "--start",
        "takes 0x and 1 to 16 hexadecimal digits, below 2^N",
    ),
    ("HEX", "is hexadecimal digits, two a byte, without 0x"),
    ("ADDRESS", "is 0x and 1 to 16 hexadecimal digits, below 2^N"),
];

/// Standard error, whose first line is held until it is known what is to be said beside it.
#[derive(Drop)]
pub struct Held<E: Write> {
    err: E,
    line: [u8; MOST],
    len: usize,
    passed: bool,
}

impl<E: Write> Held<E> {
    /// What is written goes to `err`.
    pub fn new(err: E) -> Held<E> {
        Held {
            err,
            line: [0; MOST],
            len: 0,
            passed: false,
        }
    }

    // Writes what is held. From then on nothing is held.
    fn pass(&mut self) -> io::Result<()> {
        let len = if self.passed { 0 } else { self.len.min(MOST) };
        self.passed = true;
        self.err.write_all(&self.line[..len])
    }

    /// Writes what is held, and a hint beside it where there is one; nothing where it was passed on before, or where the reader of a pipe has gone.
    pub fn finish(&mut self, is_closed: bool) -> io::Result<()> {
        let len = self.len.min(MOST);
        if self.passed || is_closed && &self.line[..len] == b"cannot write\n".as_slice() {
            return Ok(());
        }
        self.pass()?;
        let name = self.line[..len].strip_prefix(b"bad value for ");
        let name = name.and_then(|name| name.strip_suffix(b"\n"));
        for (value, hint) in VALUES {
            if name == Some(value.as_bytes()) {
                writeln!(self.err, "hint: {value} {hint}")?;
            }
        }
        Ok(())
    }
}

impl<E: Write> Write for Held<E> {
    fn write(&mut self, bytes: &[u8]) -> io::Result<usize> {
        let len = self.len.min(MOST);
        if !self.passed && bytes.len() <= MOST - len {
            self.line[len..len + bytes.len()].copy_from_slice(bytes);
            self.len = len + bytes.len();
            return Ok(bytes.len());
        }
        self.pass()?;
        self.err.write(bytes)
    }

    fn flush(&mut self) -> io::Result<()> {
        self.err.flush()
    }
}
