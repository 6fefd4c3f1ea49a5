//! Where the bytes of a file come from.

ghost use Rattle.std.specs.{Prelude.{◌≡◌, ◌≢◌, ⊤, ℕ, ◌≤◌, List, length, take, Result, Ok, Err, IfOk, IfSome, MatchResult}, IoError.error_kind};
ghost use Rattle.dw_files.specs.declared.files.LoadError.{LoadError as TheLoadError};

use std::alloc::Global;
use std::fs::{File, OpenFile};
use std::io::{self, ErrorKind, Input, Read};
use std::rt::Files;
use thiserror::Error;

/// How many bytes a section or a dump may have.
pub const LIMIT: u64 = 2_147_483_647;

/// The path by which standard input is named.
pub const STDIN: &str = "-";

/// Why a file has no bytes.
#[derive(Clone, Copy, Debug, PartialEq, Eq, Error)]
pub enum LoadError {
    /// The file cannot be opened or read.
    #[error("the file cannot be read")]
    CannotRead,
    /// A request for memory was refused.
    #[error("out of memory")]
    OutOfMemory,
}

/// Files by their paths.
pub trait Load {
    ghost use Rattle.dw_files.specs.declared.files.LoadError.{LoadError};

    /// What a file may be found to be, by its path: its bytes, or why it has none. Files that are not known may be anything.
    ghost gives: { Self → List ℕ → Result (List ℕ) LoadError → Type 0 } = { λ _ _ _. ⊤ };

    /// All bytes of the file, or its first 2,147,483,648 where it has more. So a section that is too long is told by its length, whatever else the file
    /// holds. `CannotRead` is answered where the file cannot be opened or read, and `OutOfMemory` where a request for memory was refused.
    fn load(&mut self, path: &str) -> Result<Vec<u8>, LoadError>
        ensures gives { MatchResult result (λ bytes. gives self.old path.now (Ok bytes.items)) (λ e. gives self.old path.now (Err e)) }
        // What it finds in a file it might have found before.
        ensures same { (p : List ℕ) (r : Result (List ℕ) LoadError) → gives self.new p r → gives self.old p r };
}

// By doubling, and 512 more the first time, the room ends just above 2,147,483,648. At that number it would be doubled once more, only to find the end.
const FIRST_ROOM: usize = 513;

// Room for all bytes that a file is said to have, and for 513 more: without room left over it would be enlarged, only to find the end.
fn room_for<F: OpenFile>(file: &F) -> usize {
    match file.metadata() {
        Ok(data) => data.len().min(LIMIT + 1) as usize + FIRST_ROOM,
        Err(_) => FIRST_ROOM,
    }
}

// What an error of the system is to a reader of files.
fn kind_of(error: io::Error) -> LoadError
    ensures memory { error_kind error ≡ ErrorKind.OutOfMemory → result ≡ LoadError.OutOfMemory }
    ensures other { error_kind error ≢ ErrorKind.OutOfMemory → result ≡ LoadError.CannotRead }
{
    if error.kind() == ErrorKind::OutOfMemory {
        LoadError::OutOfMemory
    } else {
        LoadError::CannotRead
    }
}

// The first bytes that a reader has left, read into so much room at first.
fn bytes_of<R: Read + Drop>(alloc: Global, reader: R, room: usize) -> io::Result<Vec<u8>>
    ensures bound { IfOk result (λ bytes. length bytes.items ≤ 2_147_483_648) }
    // Where it is known what the reader has left, it is known what is read.
    ensures bytes { IfOk result (λ bytes. IfSome (R.remaining reader) (λ left. bytes.items ≡ take 2_147_483_648 left)) }
{
    let mut bytes = Vec::with_capacity(alloc, room)?;
    let mut reader = reader.take(LIMIT + 1);
    reader.read_to_end(&mut bytes)?;
    // They are no more, but no clause knows what bytes a file has.
    bytes.truncate(2_147_483_648);
    Ok(bytes)
}

fn bytes_at<R: Files + AllocGlobal>(rt: &R, path: &str) -> io::Result<Vec<u8>>
    ensures bound { IfOk result (λ bytes. length bytes.items ≤ 2_147_483_648) }
{
    let file = File::open(rt, path)?;
    let room = room_for(&file);
    bytes_of(rt.alloc(), file, room)
}

/// The files of the system. `-` names standard input, and a file of that name is `./-`.
#[derive(Drop)]
pub struct Disk<'a, R: Files + Input + AllocGlobal> {
    rt: &'a R,
}

impl<'a, R: Files + Input + AllocGlobal> Disk<'a, R> {
    /// The files of the system that `rt` leads to. Takes no memory.
    pub fn new(rt: &'a R) -> Disk<'a, R>
        ensures { result.rt.now ≡ rt.now }
    {
        Disk { rt }
    }
}

// No clause of the system's files says what a path gives, so none can say that this is what it gives.
impl<R: Files + Input + AllocGlobal> Load for Disk<'_, R> {
    fn load(&mut self, path: &str) -> Result<Vec<u8>, LoadError>
        ensures bound { IfOk result (λ bytes. length bytes.items ≤ 2_147_483_648) }
        ensures gives { MatchResult result (λ _. ⊤) (λ _. ⊤) }
        ensures same { (p : List ℕ) (r : Result (List ℕ) TheLoadError) → ⊤ → ⊤ }
    {
        let bytes = if path == STDIN {
            bytes_of(self.rt.alloc(), self.rt.reader(), FIRST_ROOM)
        } else {
            bytes_at(self.rt, path)
        };
        bytes.map_err(kind_of)
    }
}
