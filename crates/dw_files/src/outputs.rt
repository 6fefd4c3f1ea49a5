//! Outputs that are terminals or pipes.

ghost use Rattle.std.specs.{Prelude.{◌≡◌, ◌<◌, IfOk, IsOk, length, position, take}, Io.WritesAtMost, Io.KnownBytes.{Appends, Keeps}, List.position_or_len};
ghost use Rattle.dw_files.specs.Inner.Terminal.{is_order, shown};

use std::io::{self, ErrorKind, Write};

// The first byte that a terminal takes for an order: a control character that is no line feed.
fn first_order(bytes: &[u8]) -> Option<usize>
    ensures { result ≡ position is_order bytes.now }
{
    bytes
        .iter()
        .position(|byte| byte.is_ascii_control() && *byte != b'\n')
}

// How many bytes come before it.
fn plain_len(bytes: &[u8]) -> usize
    ensures { result ≡ position_or_len is_order bytes.now }
{
    first_order(bytes).unwrap_or(bytes.len())
}

/// An output to a terminal. So that a file's name gives the terminal no orders, a control character other than a line feed is shown as `?`.
#[derive(Drop)]
pub struct Shown<W: Write> {
    out: W,
}

impl<W: Write> Shown<W> {
    /// What is written goes to `out`.
    pub fn new(out: W) -> Shown<W>
        ensures { result.out ≡ out }
    {
        Shown { out }
    }
}

impl<W: Write> Write for Shown<W> {
    fn write(&mut self, bytes: &[u8]) -> io::Result<usize>
        ensures bound { WritesAtMost result bytes.now }
        // The output gets what is shown of the bytes that are taken, of which there is one at least, where there are any.
        ensures shown { IfOk result (λ n. Appends (W.contents self.old.out) (W.contents self.new.out) (shown (take n bytes.now))) }
        ensures some { IfOk result (λ n. 0 < length bytes.now → 0 < n) }
        ensures none { length bytes.now ≡ 0 → IsOk result }
    {
        let plain = plain_len(bytes);
        if plain > 0 {
            self.out.write_all(&bytes[..plain])?;
            return Ok(plain);
        }
        if bytes.is_empty() {
            return Ok(0);
        }
        self.out.write_all(b"?")?;
        Ok(1)
    }

    fn flush(&mut self) -> io::Result<()>
        ensures kept { Keeps (W.contents self.old.out) (W.contents self.new.out) }
    {
        self.out.flush()
    }
}

/// An output that remembers whether it is a pipe that its reader has closed.
#[derive(Drop)]
pub struct Piped<W: Write> {
    out: W,
    closed: bool,
}

impl<W: Write> Piped<W> {
    /// What is written goes to `out`.
    pub fn new(out: W) -> Piped<W>
        ensures { result.out ≡ out }
    {
        Piped { out, closed: false }
    }

    /// Whether a write was answered with a broken pipe.
    pub fn is_closed(&self) -> bool
        ensures { result ≡ self.now.closed }
    {
        self.closed
    }
}

impl<W: Write> Write for Piped<W> {
    ghost contents = { λ piped. W.contents piped.out };

    fn write(&mut self, bytes: &[u8]) -> io::Result<usize> {
        let written = self.out.write(bytes);
        if let Err(error) = &written {
            self.closed = self.closed || error.kind() == ErrorKind::BrokenPipe;
        }
        written
    }

    fn flush(&mut self) -> io::Result<()> {
        self.out.flush()
    }
}
