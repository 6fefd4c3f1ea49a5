//! The subcommands that need the normal form of a section: `normal`, `same` and `cost`.

ghost use Rattle.std.specs.Prelude.{◌≡◌, ◌≤◌, false, length, Err, IfOk, MatchResult, Ok};
ghost use Rattle.dw_show.specs.{Answers.costs_text, Listing.{TellsOfFile, output_of}};
ghost use Rattle.dw_command.specs.{Answers.{Costs, Normalises, SameEnds}, Failure.OfSame, Inner.Failure.of_write};

use dw_files::{LIMIT, Load};
use dw_normal::{SameError, Which, WriteError, normal_length, normalise_to, same};
use dw_num::Target;
use dw_section::check;
use dw_show::{Failure, Listing, count_changes_of, load_file, put_pair, put_verdict};
use dw_words::Writing;
use std::alloc::Global;
use std::io::Write;

fn of_same(error: SameError) -> Failure<'static>
    ensures { OfSame error result }
{
    match error {
        SameError::Refused(Which::First, refusal) => Failure::RefusedIn(refusal, "first"),
        SameError::Refused(Which::Second, refusal) => Failure::RefusedIn(refusal, "second"),
        SameError::OutOfMemory => Failure::OutOfMemory,
    }
}

fn of_write(error: WriteError) -> Failure<'static>
    ensures { result ≡ of_write error }
{
    match error {
        WriteError::Refused(refusal) => Failure::Refused(refusal),
        WriteError::Write { .. } => Failure::CannotWrite,
        WriteError::Memory { .. } => Failure::OutOfMemory,
    }
}

/// Writes the normal form of the section in a file. Nothing is written where the section is refused.
pub fn run_normal<'a, L: Load, W: Write>(
    alloc: Global,
    target: Target,
    writing: &Writing<'a>,
    files: &mut L,
    out: &mut Listing<W>,
) -> Result<(), Failure<'a>>
    requires works { out.old.failed ≡ false }
    ensures { TellsOfFile (L.gives files.old) W.contents out.old out.new writing.now.path.now (Normalises target writing.now.cap) (λ _ n. n) result }
{
    let bytes = load_file(files, writing.path)?;
    let _ = normalise_to(alloc, &bytes, target, writing.cap, out).map_err(of_write)?;
    out.finish()
}

/// Prints whether the sections in two files say the same, and answers status 0, or 1 where not. Both are read first.
pub fn run_same<'a, L: Load, W: Write>(
    alloc: Global,
    target: Target,
    path: &'a str,
    other: &'a str,
    files: &mut L,
    out: &mut Listing<W>,
) -> Result<u8, Failure<'a>>
    requires works { out.old.failed ≡ false }
    ensures ends { SameEnds (L.gives files.old) (output_of W.contents out.old) (output_of W.contents out.new) target path.now other.now result }
    ensures most { IfOk result (λ status. status ≤ 1) }
{
    let first = load_file(files, path)?;
    let second = load_file(files, other)?;
    let is_same = same(alloc, &first, &second, target).map_err(of_same)?;
    put_verdict(out, is_same)
}

// What is printed of a section beside its length.
#[derive(Clone, Copy)]
struct Cost {
    normal: u64,
    starts: u64,
    changes: u64,
}

// Apart from the file's bytes: what is owned beside the ways out of this is proved for long.
fn costs_of<'a>(alloc: Global, target: Target, bytes: &[u8]) -> Result<Cost, Failure<'a>>
    ensures { MatchResult result
        (λ c. Costs target bytes.now (Ok (record { normal = c.normal; starts = c.starts; changes = c.changes }))) (λ e. Costs target bytes.now (Err e)) }
{
    let normal = normal_length(alloc, bytes, target, LIMIT)?;
    let table = check(alloc, bytes, target)?;
    let starts = table.row_starts();
    let changes = count_changes_of(&table, starts)?;
    Ok(Cost {
        normal,
        starts,
        changes,
    })
}

/// Prints how many bytes the section in a file and its normal form have, and how many rows their programs start.
pub fn run_cost<'a, L: Load, W: Write>(
    alloc: Global,
    target: Target,
    path: &'a str,
    files: &mut L,
    out: &mut Listing<W>,
) -> Result<(), Failure<'a>>
    requires works { out.old.failed ≡ false }
    ensures { TellsOfFile (L.gives files.old) W.contents out.old out.new path.now (Costs target) (λ s cost. costs_text (length s) cost) result }
{
    let bytes = load_file(files, path)?;
    let bytes = bytes.as_slice();
    let costs = costs_of(alloc, target, bytes)?;
    put_pair(out, b"bytes ", bytes.len() as u64, costs.normal);
    put_pair(out, b"rowstarts ", costs.starts, costs.changes);
    out.finish()
}
