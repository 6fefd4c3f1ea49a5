//! An output that its owner lends to a run.

ghost use Rattle.std.specs.Prelude.{◌≡◌};
ghost use Rattle.dw_command.specs.Inner.Lent.{lent_bytes};

use std::io::{self, Write};

/// An output that is lent, and how many bytes it took since. A run over any output tells of it only what it holds, so what this one
/// tells begins with the loan that it is.
#[derive(Drop)]
pub struct Lent<'a, W: Write> {
    out: &'a mut W,
    given: u64,
}

impl<'a, W: Write> Lent<'a, W> {
    /// Lends an output.
    pub fn new(out: &'a mut W) -> Lent<'a, W>
        ensures out { result.out ≡ out.entry }
        ensures given { result.given ≡ 0 }
    {
        Lent { out, given: 0 }
    }

    /// Gives the output back.
    pub fn into_inner(self) -> &'a mut W
        ensures { result ≡ self.entry.out }
    {
        self.out
    }
}

impl<W: Write> Write for Lent<'_, W> {
    ghost contents = { λ lent. lent_bytes lent.out.ghost_name lent.given (W.contents lent.out.now) };

    fn write(&mut self, bytes: &[u8]) -> io::Result<usize> {
        // No run writes so much that the count passes 64 bits, which no clause knows.
        let most = (bytes.len() as u64).min(u64::MAX - self.given) as usize;
        let n = self.out.write(&bytes[..most])?;
        self.given += n as u64;
        Ok(n)
    }

    fn flush(&mut self) -> io::Result<()> {
        self.out.flush()
    }
}
