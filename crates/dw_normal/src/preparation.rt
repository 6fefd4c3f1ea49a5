//! A section on the way to its normal form: checked, found short enough, and with its initial rows.

ghost use Rattle.std.specs.Prelude.{◌≡◌, ◌≤◌, IfOk, IfErr};
ghost use Rattle.dw_num.specs.Refusals.{Refuses};
ghost use Rattle.dw_normal.specs.{Answers.{IsTooLong, NormalFault, too_long}, Inner.Answers.{IsPrepared, IsMeasured}, Inner.Listed.{AreInitial}};

use crate::entry::write_entries;
use crate::groups::{Ready, make_ready};
use crate::output::{Output, Stop};
use crate::sink::Tape;
use dw_num::{Code, ReadError, Refusal, Target};
use dw_section::{Table, check};
use std::alloc::Global;

// How many bytes the normal form of a table has, where that is within a cap.
fn measured_within(alloc: Global, ready: &Ready<'_>, cap: u64) -> Result<u64, ReadError>
    requires cap { cap ≤ 2147483647 }
    requires rows { AreInitial ready.now.table ready.now.rows.entries }
    ensures found { IfOk result (IsMeasured ready.now.table.target cap ready.now.table.bytes) }
    ensures first { IfErr result (Refuses (λ r. IsTooLong ready.now.table.target cap ready.now.table.bytes × (r ≡ too_long))) }
{
    ready.table.accepted();
    let mut out = Output::new(alloc, cap, true);
    match write_entries(ready, alloc, &mut Tape::new(alloc), &mut out) {
        Ok(()) => Ok(cap - out.room),
        Err(Stop::Full) => Err(ReadError::Refused(Refusal {
            code: Code::NormalTooLong,
            at: 0,
        })),
        Err(Stop::Failed) => unreachable!(),
        Err(Stop::Memory) => Err(ReadError::OutOfMemory),
    }
}

/// How many bytes the normal form of a section has, where that is within a cap.
pub(crate) fn measured_section(
    alloc: Global,
    bytes: &[u8],
    target: Target,
    cap: u64,
) -> Result<u64, ReadError>
    requires cap { cap ≤ 2147483647 }
    ensures found { IfOk result (IsMeasured target cap bytes.now) }
    ensures first { IfErr result (Refuses (NormalFault target cap bytes.now)) }
{
    let table = check(alloc, bytes, target)?;
    let ready = make_ready(alloc, table, cap)?;
    let measured = measured_within(alloc, &ready, cap);
    drop(ready);
    measured
}

/// What a table is written with, where its normal form is within a cap. It is measured only where the lengths of its programs do not show that.
pub(crate) fn prepared<'a>(
    alloc: Global,
    table: Table<'a>,
    cap: u64,
) -> Result<Ready<'a>, ReadError>
    requires cap { cap ≤ 2147483647 }
    ensures found { IfOk result (λ r. (r.table ≡ table.entry) × IsPrepared table.entry.target cap table.entry.bytes r.rows.entries) }
    ensures first { IfErr result (Refuses (λ r. IsTooLong table.entry.target cap table.entry.bytes × (r ≡ too_long))) }
{
    table.accepted();
    let ready = make_ready(alloc, table, cap)?;
    if !ready.short {
        measured_within(alloc, &ready, cap)?;
    }
    Ok(ready)
}

/// What a section is written with, where its normal form is within a cap.
pub(crate) fn prepared_section<'a>(
    alloc: Global,
    bytes: &'a [u8],
    target: Target,
    cap: u64,
) -> Result<Ready<'a>, ReadError>
    requires cap { cap ≤ 2147483647 }
    ensures found { IfOk result (λ r. (r.table ≡ record { target = target; bytes = bytes.now }) × IsPrepared target cap bytes.now r.rows.entries) }
    ensures first { IfErr result (Refuses (NormalFault target cap bytes.now)) }
{
    let table = check(alloc, bytes, target)?;
    prepared(alloc, table, cap)
}
