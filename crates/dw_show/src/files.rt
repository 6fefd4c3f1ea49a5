//! Where the bytes of a file come from.

ghost use Rattle.std.specs.Prelude.{ℕ, List, option_map, Result, Ok, Err, MatchResult};
ghost use Rattle.dw_show.specs.Answers.{Loads, LoadsDump, LoadsText};
ghost use Rattle.dw_files.specs.declared.files.LoadError.{LoadError as TheLoadError};

use crate::failure::Failure;
use dw_files::{LIMIT, Load, LoadError};
use std::alloc::Global;

/// The bytes of a file.
pub fn load_file<'a, L: Load>(files: &mut L, path: &'a str) -> Result<Vec<u8>, Failure<'a>>
    ensures loads { MatchResult result (λ bytes. Loads (L.gives files.old) path.now (Ok bytes.items)) (λ e. Loads (L.gives files.old) path.now (Err e)) }
    ensures same { (p : List ℕ) (r : Result (List ℕ) TheLoadError) → L.gives files.new p r → L.gives files.old p r }
{
    match files.load(path) {
        Ok(bytes) => Ok(bytes),
        Err(LoadError::CannotRead) => Err(Failure::CannotRead(path)),
        Err(LoadError::OutOfMemory) => Err(Failure::OutOfMemory),
    }
}

/// The bytes of a dump. One of more than 2,147,483,647 bytes cannot be read.
pub fn load_dump<'a, L: Load>(files: &mut L, path: &'a str) -> Result<Vec<u8>, Failure<'a>>
    ensures loads { MatchResult result (λ bytes. LoadsDump (L.gives files.old) path.now (Ok bytes.items))
        (λ e. LoadsDump (L.gives files.old) path.now (Err e)) }
    ensures same { (p : List ℕ) (r : Result (List ℕ) TheLoadError) → L.gives files.new p r → L.gives files.old p r }
{
    let bytes = load_file(files, path)?;
    if bytes.len() as u64 > LIMIT {
        return Err(Failure::CannotRead(path));
    }
    Ok(bytes)
}

/// The text of a dump, which is empty where none is named.
pub fn load_text<'a, L: Load>(
    alloc: Global,
    files: &mut L,
    path: Option<&'a str>,
) -> Result<Vec<u8>, Failure<'a>>
    ensures loads { let wanted = option_map (λ p. p.now) path.entry in
        MatchResult result (λ bytes. LoadsText (L.gives files.old) wanted (Ok bytes.items)) (λ e. LoadsText (L.gives files.old) wanted (Err e)) }
{
    match path {
        Some(path) => load_dump(files, path),
        None => Ok(Vec::new(alloc)),
    }
}
