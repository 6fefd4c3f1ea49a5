//! Runs of the command over files and outputs in memory.

use dw_command::{Load, LoadError, engine};
use std::alloc::{AllocError, Global};
use std::io::Write;

// One CIE, and one FDE of four rows.
pub(crate) const PLAIN: &[u8] =
    b"\x14\0\0\0\xff\xff\xff\xff\x04\0\x08\0\x01\x78\x10\x0c\x07\x08\x90\x01\0\0\0\0\
\x24\0\0\0\0\0\0\0\0\x10\x40\0\0\0\0\0\x10\0\0\0\0\0\0\0\x41\x0e\x10\x86\x02\x43\x0d\x06\x4b\x0c\x07\x08\0\0\0\0";

// A machine that stopped at the third row of that section.
const DUMP: &[u8] =
    b"pc 0x401004\nr6 0x7ffe00\nr7 0x7ffdf0\nmem 0x7ffe00 00020000000000008812400000000000\n";

// A section named `in`, and a dump named `second`. There is no memory for a file named `huge`.
#[derive(Drop)]
pub(crate) struct Files<'a> {
    pub(crate) section: &'a [u8],
    pub(crate) alloc: Global,
}

impl Load for Files<'_> {
    fn load(&mut self, path: &str) -> Result<Vec<u8>, LoadError> {
        match path {
            "in" => Vec::from_slice(self.alloc, self.section).map_err(|_| LoadError::OutOfMemory),
            "second" => Vec::from_slice(self.alloc, DUMP).map_err(|_| LoadError::OutOfMemory),
            "huge" => Err(LoadError::OutOfMemory),
            _ => Err(LoadError::CannotRead),
        }
    }
}

// The words of a line, which are apart by spaces.
fn words_of(alloc: Global, line: &str) -> Result<Vec<String>, AllocError> {
    let mut list = Vec::new(alloc);
    for word in line.split_whitespace() {
        list.push(String::from_str(alloc, word)?)?;
    }
    Ok(list)
}

// The status of a run over a section. What it prints is appended to `out` and `err`.
pub(crate) fn status_of<W: Write, E: Write>(
    alloc: Global,
    line: &str,
    section: &[u8],
    out: &mut W,
    err: &mut E,
) -> Result<u8, AllocError> {
    let words = words_of(alloc, line)?;
    let mut files = Files { section, alloc };
    Ok(engine(alloc, words.as_slice(), &mut files, out, err))
}
