//! Normal forms, and whether two sections say the same.

ghost use Rattle.std.specs.{Prelude.{◌≡◌, ◌⊎◌, ℕ, ◌<◌, ◌≤◌, ◌-◌, ◌^◌, List, length, true, IfOk, IfErr, MatchResult}, Bool.Decides};
ghost use Rattle.dw_num.specs.Refusals.{Refuses};
ghost use Rattle.dw_num.specs.declared.error.ReadError.TheVariants as TheError;
ghost use Rattle.dw_op.specs.Faults.{IsWithin};
ghost use Rattle.dw_section.specs.{Accepted.Accepted, Meanings.SameMeaning};
ghost use Rattle.dw_canon.specs.Normal.{IsNormalForm};
ghost use Rattle.dw_normal.specs.Answers.{FitsCap, IsWithinEither, NormalFault, RefusesWithin, SameFault, Writes, too_long};
ghost use Rattle.dw_normal.specs.Inner.Answers.{LengthFault, blamed, unread, unwritten};
ghost use Rattle.dw_normal.specs.declared.error.SameError.TheVariants as TheSameError;

use crate::entry::write_entries;
use crate::error::{SameError, Which, WriteError};
use crate::groups::cited_laws;
use crate::likeness::same_tables;
use crate::output::{Output, Stop};
use crate::preparation::{measured_section, prepared, prepared_section};
use crate::sink::Tape;
use dw_canon::{Sink, normal_laws};
use dw_num::{ReadError, Target, are_bytes};
use dw_section::{Table, check};
use std::alloc::Global;

/// The most bytes that a section has.
pub(crate) const LIMIT: u64 = 2_147_483_647;

/// The normal form of a section, of at most `cap` bytes, where `cap` is at most 2,147,483,647.
///
/// A refusal is the section's first fault (1 to 26, as `dw_section::check` has it), else `NormalTooLong` (27) at 0 where the normal
/// form has more than `cap` bytes. `OutOfMemory` is answered where a request for memory was refused.
pub fn normalise(
    alloc: Global,
    bytes: &[u8],
    target: Target,
    cap: u64,
) -> Result<Vec<u8>, ReadError>
    requires cap { cap ≤ 2147483647 }
    // It is the normal form of what the section says.
    ensures found { IfOk result (λ n. IsNormalForm target bytes.now n.items × (length n.items ≤ cap)) }
    // A normal form within the cap is answered.
    ensures only { (n : List ℕ) → IsNormalForm target bytes.now n → length n ≤ cap → MatchResult result (λ v. v.items ≡ n) (λ e. e ≡ TheError.OutOfMemory) }
    // One that is longer is refused.
    ensures longer { (n : List ℕ) → IsNormalForm target bytes.now n → cap < length n → IfErr result (λ e. (e ≡ TheError.Refused too_long)
        ⊎ (e ≡ TheError.OutOfMemory)) }
    // A refusal is the first fault, or that the normal form is longer.
    ensures first { IfErr result (Refuses (NormalFault target cap bytes.now)) }
    // Its place lies in the section.
    ensures within { IfErr result (Refuses (IsWithin bytes.now)) }
{
    are_bytes(bytes);
    cited_laws();
    let mut tape = Tape::new(alloc);
    match normalise_to(alloc, bytes, target, cap, &mut tape) {
        Ok(_) => Ok(tape.into_bytes()),
        Err(error) => Err(unread(error)),
    }
}

/// How many bytes the normal form of a section has, of at most `cap`, where `cap` is at most 2,147,483,647. Errors are those of `normalise`.
pub fn normal_length(
    alloc: Global,
    bytes: &[u8],
    target: Target,
    cap: u64,
) -> Result<u64, ReadError>
    requires cap { cap ≤ 2147483647 }
    ensures found { IfOk result (λ count. (n : List ℕ) × IsNormalForm target bytes.now n × (length n ≤ cap) × (count ≡ length n)) }
    ensures only { (n : List ℕ) → IsNormalForm target bytes.now n → length n ≤ cap → MatchResult result (λ count. count ≡ length n)
        (λ e. e ≡ TheError.OutOfMemory) }
    ensures first { IfErr result (Refuses (NormalFault target cap bytes.now)) }
    ensures within { IfErr result (Refuses (IsWithin bytes.now)) }
{
    are_bytes(bytes);
    cited_laws();
    match measured_section(alloc, bytes, target, cap) {
        Ok(len) => Ok(len),
        Err(error) => Err(error),
    }
}

// What could not be written before the first byte.
fn unwritten(error: ReadError) -> WriteError
    ensures { result ≡ unwritten error }
{
    match error {
        ReadError::Refused(refusal) => WriteError::Refused(refusal),
        ReadError::OutOfMemory => WriteError::Memory { written: 0 },
    }
}

// What could not be written on a tape, whose failures are refused requests for memory.
fn unread(error: WriteError) -> ReadError
    ensures { result ≡ unread error }
{
    match error {
        WriteError::Refused(refusal) => ReadError::Refused(refusal),
        WriteError::Write { .. } | WriteError::Memory { .. } => ReadError::OutOfMemory,
    }
}

/// Writes the normal form of a section, of at most `cap` bytes, to a sink, and answers how many bytes were written. Each refusal comes before the first byte.
/// `cap` is at most 2,147,483,647.
///
/// `Refused` has the refusals of `normalise`. `Write` is answered where the sink failed, and `Memory` where a request for memory was refused. Both say how
/// many bytes the sink took before, 0 or more: a beginning of the normal form. Want of memory before the section is known to have a normal form within the
/// cap is `Memory` behind 0 bytes.
pub fn normalise_to<S: Sink>(
    alloc: Global,
    bytes: &[u8],
    target: Target,
    cap: u64,
    sink: &mut S,
) -> Result<u64, WriteError>
    requires cap { cap ≤ 2147483647 }
    requires room { S.failures sink.old < 2 ^ 64 - 1 }
    ensures writes { Writes target cap bytes.now result (S.failures sink.old) (S.failures sink.new) (S.taken sink.old) (S.taken sink.new) }
    ensures within { IfErr result (RefusesWithin bytes.now) }
{
    are_bytes(bytes);
    cited_laws();
    let ready = match prepared_section(alloc, bytes, target, cap) {
        Ok(ready) => ready,
        Err(error) => return Err(unwritten(error)),
    };
    let mut out = Output::new(alloc, cap, false);
    let end = write_entries(&ready, alloc, sink, &mut out);
    let written = cap.saturating_sub(out.room);
    drop(ready);
    let Err(stop) = end else {
        return Ok(written);
    };
    match stop {
        Stop::Full => unreachable!(),
        Stop::Failed => Err(WriteError::Write { written }),
        Stop::Memory => Err(WriteError::Memory { written }),
    }
}

fn blamed(which: Which, error: ReadError) -> SameError
    ensures { result ≡ blamed which error }
{
    match error {
        ReadError::Refused(refusal) => SameError::Refused(which, refusal),
        ReadError::OutOfMemory => SameError::OutOfMemory,
    }
}

fn compared(alloc: Global, first: Table<'_>, second: Table<'_>) -> Result<bool, SameError>
    requires target { first.target ≡ second.target }
    ensures found { IfOk result (λ b. Decides b (SameMeaning first.entry.target first.entry.bytes second.entry.bytes)) }
    ensures fit { IfOk result (λ b. FitsCap first.entry.target 2147483647 first.entry.bytes × FitsCap first.entry.target 2147483647 second.entry.bytes) }
    ensures refused { IfErr result (LengthFault first.entry.target 2147483647 first.entry.bytes second.entry.bytes) }
{
    normal_laws();
    let one = match prepared(alloc, first, LIMIT) {
        Ok(one) => one,
        Err(error) => return Err(blamed(Which::First, error)),
    };
    let two = match prepared(alloc, second, LIMIT) {
        Ok(two) => two,
        Err(error) => return Err(blamed(Which::Second, error)),
    };
    let same = same_tables(alloc, &one, &two);
    drop(one);
    drop(two);
    match same {
        Ok(same) => Ok(same),
        Err(Stop::Full) => unreachable!(),
        Err(Stop::Failed | Stop::Memory) => Err(SameError::OutOfMemory),
    }
}

// Whether a checked section says the same as itself: it does, unless its normal form is too long.
fn same_as_itself(alloc: Global, table: Table<'_>) -> Result<bool, SameError>
    ensures found { IfOk result (λ b. (b ≡ true) × FitsCap table.entry.target 2147483647 table.entry.bytes) }
    ensures refused { IfErr result (LengthFault table.entry.target 2147483647 table.entry.bytes table.entry.bytes) }
{
    match prepared(alloc, table, LIMIT) {
        Ok(_ready) => Ok(true),
        Err(error) => Err(blamed(Which::First, error)),
    }
}

/// Whether two sections say the same: the same nonempty FDEs with the same return address registers, and the same rules at each address that they cover.
///
/// `Refused` has the first fault, as `dw_section::check` has it, and says whose it is: the first section's comes before the second's. Where neither has one,
/// a section whose normal form has more than 2,147,483,647 bytes is refused too, with `NormalTooLong` (27) at 0, again the first one before the second.
/// `OutOfMemory` is answered where a request for memory was refused.
pub fn same(alloc: Global, first: &[u8], second: &[u8], target: Target) -> Result<bool, SameError>
    ensures found { IfOk result (λ b. Accepted target first.now × Accepted target second.now × Decides b (SameMeaning target first.now second.now)) }
    // Where a normal form has more than 2,147,483,647 bytes there is no answer.
    ensures fit { IfOk result (λ b. FitsCap target 2147483647 first.now × FitsCap target 2147483647 second.now) }
    ensures only { FitsCap target 2147483647 first.now → FitsCap target 2147483647 second.now → IfErr result (λ e. e ≡ TheSameError.OutOfMemory) }
    ensures refused { IfErr result (SameFault target 2147483647 first.now second.now) }
    ensures within { IfErr result (IsWithinEither first.now second.now) }
{
    are_bytes(first);
    are_bytes(second);
    cited_laws();
    let one = match check(alloc, first, target) {
        Ok(one) => one,
        Err(error) => return Err(blamed(Which::First, error)),
    };
    if first == second {
        return same_as_itself(alloc, one);
    }
    let two = match check(alloc, second, target) {
        Ok(two) => two,
        Err(error) => return Err(blamed(Which::Second, error)),
    };
    compared(alloc, one, two)
}
