//! The frame of the caller by an index that was kept, or by the table of a section (6.4.1).

ghost use Rattle.std.specs.Prelude.{◌≡◌, ◌⊎◌, ◌-◌, ◌^◌, ◌<◌, ◌≤◌, true, IfOk, IfErr, OnOk, Result, Err};
ghost use Rattle.dw_row.specs.declared.rule.CfaRule.TheVariants.{Unset};
ghost use Rattle.dw_section.specs.{Fits.RowFits, Laws.CfaIsSet, Ranges.IsTable};
ghost use Rattle.dw_frame.specs.{Frames.{is_device, stopped}, declared.frame.UnwindError.TheVariants.OutOfMemory};
ghost use Rattle.dw_frame.specs.declared.frame.{Frame.{Frame as TheFrame}, UnwindError.{UnwindError as TheError}};
ghost use Rattle.dw_unwind.specs.{Unwound.{Unwound, UnwindFails}, UnwoundAt.{IsLed, LacksRow, UnwoundAt, UnwindAtFails, by_index}};
ghost use Rattle.dw_unwind.specs.Inner.Found.{FindsRow};
ghost use Rattle.dw_unwind.specs.declared.by_index.UnwindAtError.TheVariants as TheUnwindAtError;

use dw_cfa::RowRoom;
use dw_eval::{Memory, Policy, Registers};
use dw_frame::{Frame, FrameRoom, UnwindError, unwind_row};
use dw_num::{Refusal, Target, are_bytes};
use dw_row::CfaRule;
use dw_section::{LookUpError, Ranged, Table, look_up, section_laws};
use std::alloc::Global;
use thiserror::Error;

/// Why there is no frame of the caller by an index.
#[derive(Clone, Copy, Debug, PartialEq, Eq, Error)]
pub enum UnwindAtError {
    /// The index is not that of an accepted section of these bytes: no FDE that covers the address stands where it says, or the CFA has no rule there.
    #[error("the index is not the one of these bytes")]
    BadIndex,
    /// What stands there is refused, as `dw_section::look_up` refuses it (1 to 23, 26).
    #[error("{0}")]
    Refused(Refusal),
    /// There is no frame, as `unwind` says it.
    #[error("{0}")]
    Unwind(UnwindError),
}

fn cfa_is_set()
    ensures { CfaIsSet }
{
    section_laws();
}

// The return address register of the FDE that covers an address by an index; `room` lends the rules there then.
fn row_at<'a>(
    bytes: &'a [u8],
    target: Target,
    index: &[Ranged],
    address: u64,
    room: &mut RowRoom<'a>,
) -> Result<u16, UnwindAtError>
    ensures own { IsTable target bytes.now index.now → FindsRow target bytes.now address room.new result }
    ensures led { IfOk result (λ register. IsLed target bytes.now index.now address register room.new) }
    ensures lacks { IfErr result (LacksRow target bytes.now index.now address) }
    ensures set { OnOk result (room.new.cfa ≡ Unset → ⊥) }
    ensures fits { OnOk result (RowFits target room.new) }
{
    cfa_is_set();
    are_bytes(bytes);
    match look_up(bytes, target, index, address, room) {
        Ok(Some(fde)) => {
            if let CfaRule::Unset = room.row().cfa_rule() {
                return Err(UnwindAtError::BadIndex);
            }
            Ok(fde.return_register)
        }
        Ok(None) => Err(UnwindAtError::Unwind(UnwindError::NoFde)),
        Err(LookUpError::BadIndex) => Err(UnwindAtError::BadIndex),
        Err(LookUpError::Refused(refusal)) => Err(UnwindAtError::Refused(refusal)),
        Err(LookUpError::OutOfMemory) => Err(UnwindAtError::Unwind(UnwindError::OutOfMemory)),
    }
}

/// The caller's frame as `unwind` answers it, by an index of a section's nonempty FDEs that was kept (`Table::index`), in bytes that are not judged again:
/// the row is looked up as `look_up` does. So bytes and index need not belong together: where they do not, the answer is by the FDE that stands at the place,
/// or an error. `room` is where the row is made, and `frame_room` where the registers are put; both may be those of an earlier call.
pub fn unwind_at<'a, 'r, M: Memory>(
    alloc: Global,
    bytes: &'a [u8],
    target: Target,
    index: &[Ranged],
    pc: u64,
    room: &mut RowRoom<'a>,
    frame_room: &'r mut FrameRoom,
    registers: &Registers,
    memory: &mut M,
    default: Policy,
    steps: u64,
) -> Result<Frame<'r>, UnwindAtError>
    requires room { M.failures memory.old < 2 ^ 64 - 1 }
    // No byte of the memory changes.
    ensures same { M.byte memory.new ≡ M.byte memory.old }
    // The count of failures stays or grows.
    ensures counted { M.failures memory.old ≤ M.failures memory.new }
    // By the index of an accepted section it is what `unwind` answers of it.
    ensures own { IsTable target bytes.now index.now → (r : Result TheFrame TheError) × (result ≡ by_index r)
        × (M.failures memory.new ≡ M.failures memory.old → (r ≡ Err OutOfMemory)
        ⊎ Unwound target bytes.now pc (stopped target registers.now (M.byte memory.old)) default steps r)
        × (M.failures memory.old < M.failures memory.new → (e : TheError) × (r ≡ Err e)
        × UnwindFails target bytes.now pc (stopped target registers.now (M.byte memory.old)) default steps e) }
    // By any other it is the frame by the FDE that stands where the index leads, or the first fault, or want of memory.
    ensures answered { M.failures memory.new ≡ M.failures memory.old → (result ≡ Err (TheUnwindAtError.Unwind OutOfMemory))
        ⊎ UnwoundAt target bytes.now index.now pc (stopped target registers.now (M.byte memory.old)) default steps result }
    // Where the count grows, a read of a column that is reached has failed.
    ensures failed { M.failures memory.old < M.failures memory.new → (e : TheError) × (result ≡ Err (TheUnwindAtError.Unwind e))
        × (is_device e ≡ true) × UnwindAtFails target bytes.now index.now pc (stopped target registers.now (M.byte memory.old)) default steps e }
    // No other failure is named.
    ensures device { (e : TheError) → result ≡ Err (TheUnwindAtError.Unwind e) → is_device e ≡ true → M.failures memory.old < M.failures memory.new }
{
    match row_at(bytes, target, index, pc, room) {
        Ok(returns) => {
            let row = room.row();
            unwind_row(
                alloc, row, returns, target, frame_room, registers, memory, default, steps,
            )
            .map_err(UnwindAtError::Unwind)
        }
        Err(error) => Err(error),
    }
}

/// The caller's frame of a machine that stopped at `pc` with these registers and this memory, by the rules of a section for that address (6.4.1): first the
/// CFA, then, ascending, each register that the machine holds, that the row specifies, or that is the return address's. Registers hold numbers modulo 2^N,
/// where an address has N bits. One that no instruction has set is what `default` says. Each expression may take `steps` steps.
///
/// The first fault is answered, with its column. `Device`, alone or as the kind of `Eval`, is answered exactly where the memory's count of failures grew.
///
/// `room` is where the registers are put; it may be that of an earlier call. Takes memory where there are more than 64 of them, and for the operations of one
/// expression at a time.
pub fn unwind<'r, M: Memory>(
    alloc: Global,
    table: &Table<'_>,
    target: Target,
    pc: u64,
    room: &'r mut FrameRoom,
    registers: &Registers,
    memory: &mut M,
    default: Policy,
    steps: u64,
) -> Result<Frame<'r>, UnwindError>
    requires target { target ≡ table.now.target }
    requires room { M.failures memory.old < 2 ^ 64 - 1 }
    // No byte of the memory changes.
    ensures same { M.byte memory.new ≡ M.byte memory.old }
    // The count of failures stays or grows.
    ensures counted { M.failures memory.old ≤ M.failures memory.new }
    // Where it stays, the answer is the frame or the first fault, or want of memory.
    ensures answered { M.failures memory.new ≡ M.failures memory.old → (result ≡ Err OutOfMemory)
        ⊎ Unwound target table.now.bytes pc (stopped target registers.now (M.byte memory.old)) default steps result }
    // Where it grows, a read of a column that is reached has failed.
    ensures failed { M.failures memory.old < M.failures memory.new → (e : TheError) × (result ≡ Err e) × (is_device e ≡ true)
        × UnwindFails target table.now.bytes pc (stopped target registers.now (M.byte memory.old)) default steps e }
    // No other failure is named.
    ensures device { (e : TheError) → result ≡ Err e → is_device e ≡ true → M.failures memory.old < M.failures memory.new }
{
    let mut rows = RowRoom::new(alloc);
    match row_at(table.bytes(), target, table.index(), pc, &mut rows) {
        Ok(returns) => {
            let row = rows.row();
            unwind_row(
                alloc, row, returns, target, room, registers, memory, default, steps,
            )
        }
        Err(UnwindAtError::Unwind(error)) => Err(error),
        Err(_) => unreachable!(),
    }
}
