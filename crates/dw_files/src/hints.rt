//! Hints at files that are no raw section, and at those that cannot be read.

ghost use Rattle.std.specs.Prelude.{◌≡◌};

use crate::files::{Load, LoadError};
use std::fs::File;
use std::io::{ErrorKind, Read, Write};
use std::rt::Files;

// How files begin that are no raw section, and what they are.
const KINDS: [(&[u8], &str); 10] = [
    (b"\x7fELF", "an ELF file"),
    (b"!<arch>", "an ar archive"),
    (b"!<thin>", "an ar archive"),
    (b"\xfe\xed\xfa\xce", "a Mach-O file"),
    (b"\xfe\xed\xfa\xcf", "a Mach-O file"),
    (b"\xce\xfa\xed\xfe", "a Mach-O file"),
    (b"\xcf\xfa\xed\xfe", "a Mach-O file"),
    (b"\xca\xfe\xba\xbe", "a Mach-O file"),
    (b"MZ", "a PE file"),
    (b"\x1f\x8b", "a gzip file"),
];

/// Files, with a line on each that is plainly no raw section with entries.
#[derive(Drop)]
pub struct Hinted<L: Load, E: Write> {
    files: L,
    err: E,
}

impl<L: Load, E: Write> Hinted<L, E> {
    /// The hints go to `err`.
    pub fn new(files: L, err: E) -> Hinted<L, E>
        ensures files { result.files ≡ files }
        ensures err { result.err ≡ err }
    {
        Hinted { files, err }
    }
}

impl<L: Load, E: Write> Load for Hinted<L, E> {
    ghost gives = { λ hinted. L.gives hinted.files };

    fn load(&mut self, path: &str) -> Result<Vec<u8>, LoadError> {
        let bytes = self.files.load(path)?;
        let _ = if bytes.is_empty() {
            writeln!(
                self.err,
                "hint: {path} is empty, as objcopy leaves it where there is no .debug_frame"
            )
        } else if let Some((_, kind)) = KINDS.iter().find(|(start, _)| bytes.starts_with(start)) {
            writeln!(
                self.err,
                "hint: {path} begins as {kind} does; a raw section is wanted, see dwframe --help"
            )
        } else {
            Ok(())
        };
        Ok(bytes)
    }
}

// Why a file cannot be read, by the kind of the system's error.
fn reason(kind: ErrorKind) -> &'static str {
    match kind {
        ErrorKind::NotFound => "there is no such file",
        ErrorKind::PermissionDenied => "it may not be read",
        ErrorKind::IsADirectory => "it is a directory",
        ErrorKind::NotADirectory => "a part of its path is no directory",
        ErrorKind::InvalidFilename => "its name is too long",
        _ => "the system gives an error",
    }
}

/// Files, with a line on why one cannot be read.
#[derive(Drop)]
pub struct Explained<'a, L: Load, R: Files + AllocGlobal, E: Write> {
    files: L,
    rt: &'a R,
    err: E,
}

impl<'a, L: Load, R: Files + AllocGlobal, E: Write> Explained<'a, L, R, E> {
    /// The lines go to `err`.
    pub fn new(files: L, rt: &'a R, err: E) -> Explained<'a, L, R, E>
        ensures { result.files ≡ files }
    {
        Explained { files, rt, err }
    }

    // The kind of the error with which the file is opened or read once more, where there is one.
    fn kind(&self, path: &str) -> Option<ErrorKind> {
        let read = File::open(self.rt, path).and_then(|mut file| file.read(&mut [0]));
        read.err().map(|error| error.kind())
    }
}

impl<L: Load, R: Files + AllocGlobal, E: Write> Load for Explained<'_, L, R, E> {
    ghost gives = { λ explained. L.gives explained.files };

    fn load(&mut self, path: &str) -> Result<Vec<u8>, LoadError> {
        let bytes = self.files.load(path);
        if let Err(LoadError::CannotRead) = bytes {
            if let Some(kind) = self.kind(path) {
                let _ = writeln!(self.err, "hint: {path}: {}", reason(kind));
            }
        }
        bytes
    }
}
