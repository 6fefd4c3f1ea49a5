//! The frame of the caller, by an index that the caller keeps, or by one that is made.

ghost use Rattle.std.specs.Prelude.{◌≡◌, map, OnErr};
ghost use Rattle.dw_section.specs.Ranges.{IsTable};
ghost use Rattle.dw_library.specs.{Answers.target_of, CallerFrame.{IsUnwound, Told, column_of, fault_of_kind, held_in, policy_of, status_of, told_fault}};
ghost use Rattle.dw_library.specs.{FrameAt.{IsAnyUnwound, IsOwnUnwound}, Inner.FrameAt.{FoundIsTold, OwnIsTold}, Registers.{told_register, AreTold}};

use crate::answer::{Refused, Section, refuse, target_of};
use crate::held::{Held, Register, give_all};
use crate::names::Status;
use dw_cfa::RowRoom;
use dw_eval::{Kind, Policy, Registers};
use dw_num::{ReadError, Target};
use dw_section::{Ranged, check};
use dw_unwind::{Column, FrameRoom, UnwindAtError, UnwindError, unwind_at};
use std::alloc::Global;

/// The column of the CFA, beside those of registers.
pub(crate) const COLUMN_CFA: u32 = 65536;

/// Where a machine stopped, and what is asked.
#[repr(C)]
#[derive(Clone, Copy)]
pub struct Stop {
    /// The address that is looked up.
    pub pc: u64,
    /// How many steps each expression may take.
    pub steps: u64,
    /// What an unset register is taken as: 0 for unchanged and 1 for undefined.
    pub unset: u32,
    /// 0. It is not looked at.
    pub reserved: u32,
}

/// The caller's frame: the CFA, how many registers there are, and the number of the one that holds the return address. All are 0 where there is no frame.
#[repr(C)]
#[derive(Clone, Copy)]
pub struct Frame {
    /// The canonical frame address (6.4).
    pub cfa: u64,
    /// How many registers there are.
    pub count: usize,
    /// `return_address_register` of the CIE.
    pub return_register: u16,
    /// 0.
    pub reserved: [u16; 3],
}

/// What is wrong in a column: a register's number or `COLUMN_CFA`, and of an expression its fault, 1 to 12, and the operation's index;
/// and what was wanted: the address and the length of a read where a byte is missing, or the register that is not given. All are 0 where nothing is wrong.
#[repr(C)]
#[derive(Clone, Copy, Default)]
pub struct Fault {
    /// A register's number, or 65536 for the CFA.
    pub column: u32,
    /// Of an expression (2.5) its fault, 1 to 12.
    pub kind: u16,
    /// Where a register is not given, its number.
    pub wanted: u16,
    /// Of an expression the operation's index.
    pub index: usize,
    /// Where a byte is missing, the first address of the read.
    pub address: u64,
    /// And how many bytes were read from there on.
    pub len: usize,
}

fn policy_of(unset: u32) -> Option<Policy>
    ensures { result ≡ policy_of unset }
{
    match unset {
        0 => Some(Policy::SameValue),
        1 => Some(Policy::Undefined),
        _ => None,
    }
}

// A fault in a column: of an expression with its kind and index, of a read with what it reads, of a register with its number.
fn fault_in(column: Column, kind: u16, index: usize, address: u64, len: usize, wanted: u16) -> Fault
    ensures { result ≡ record { column = column_of column; kind = kind; wanted = wanted; index = index; address = address; len = len } }
{
    let column = match column {
        Column::Cfa => COLUMN_CFA,
        Column::Register(register) => u32::from(register),
    };
    Fault {
        column,
        kind,
        wanted,
        index,
        address,
        len,
    }
}

pub(crate) fn fault_of_kind(kind: Kind, index: usize, column: Column) -> Fault
    ensures { result ≡ fault_of_kind kind index column }
{
    match kind {
        Kind::Unreadable { address, len } => fault_in(column, 4, index, address, len, 0),
        Kind::NoRegister { register } => fault_in(column, 3, index, 0, 0, register),
        other => fault_in(column, u16::from(other.number()), index, 0, 0, 0),
    }
}

const NO_FRAME: Frame = Frame {
    cfa: 0,
    count: 0,
    return_register: 0,
    reserved: [0; 3],
};

// The status and the fault where there is no frame.
fn told_fault(error: UnwindError) -> (u32, Fault)
    ensures status { result.0 ≡ status_of error }
    ensures fault { result.1 ≡ told_fault error }
{
    match error {
        UnwindError::Eval {
            kind,
            index,
            column,
        } => (Status::NoValue as u32, fault_of_kind(kind, index, column)),
        UnwindError::Unreadable {
            column,
            address,
            len,
        } => (
            Status::Unreadable as u32,
            fault_in(column, 0, 0, address, len, 0),
        ),
        UnwindError::NoRegister { column, register } => (
            Status::NoRegister as u32,
            fault_in(column, 0, 0, 0, 0, register),
        ),
        UnwindError::Device { column } => (Status::Device as u32, fault_in(column, 0, 0, 0, 0, 0)),
        UnwindError::NoFde => (Status::NoFde as u32, Fault::default()),
        UnwindError::OutOfMemory => (Status::OutOfMemory as u32, Fault::default()),
    }
}

fn told_register(entry: (u16, Option<u64>)) -> Register
    ensures { result ≡ told_register entry }
{
    let (number, value) = entry;
    Register {
        number,
        known: u16::from(value.is_some()),
        reserved: 0,
        value: value.unwrap_or(0),
    }
}

// Writes registers to the front of a buffer, where they fit.
fn put_registers(entries: &[(u16, Option<u64>)], out: &mut [Register]) -> u32
    ensures { AreTold (map told_register entries.now) out.old result out.new }
{
    if out.len() < entries.len() {
        return Status::TooShort as u32;
    }
    'entries: for place in 0..entries.len() {
        out[place] = told_register(entries[place]);
    }
    Status::Ok as u32
}

// Writes the frame of what a machine held, or answers why there is none. The rooms are made first: they are moved else.
fn unwound_at(
    alloc: Global,
    bytes: &[u8],
    target: Target,
    index: &[Ranged],
    stop: &Stop,
    default: Policy,
    held: &Held<'_>,
    out: &mut [Register],
    frame: &mut Frame,
) -> Result<u32, UnwindAtError>
    ensures any { FoundIsTold target default bytes.now stop.now (held_in held.now) index.now out.old result frame.new out.new }
    ensures own { IsTable target bytes.now index.now → OwnIsTold target default bytes.now stop.now (held_in held.now) out.old result frame.new out.new }
    ensures kept { OnErr result ((frame.new ≡ frame.old) × (out.new ≡ out.old)) }
{
    let mut room = FrameRoom::new(alloc);
    let mut row = RowRoom::new(alloc);
    let mut given = Registers::new(alloc);
    let Ok(()) = give_all(&mut given, held.registers) else {
        return Err(UnwindAtError::Unwind(UnwindError::OutOfMemory));
    };
    let (pc, steps, mut lent) = (stop.pc, stop.steps, *held);
    let found = unwind_at(
        alloc, bytes, target, index, pc, &mut row, &mut room, &given, &mut lent, default, steps,
    )?;
    let registers = found.registers.values();
    *frame = Frame {
        cfa: found.cfa,
        count: registers.len(),
        return_register: found.return_register,
        reserved: [0; 3],
    };
    Ok(put_registers(registers, out))
}

/// The caller's frame as `dwframe_unwind` tells it, by an index of the section, which is not judged again: the FDE that stands
/// at the place of the entry that covers the address is read and judged anew, so an index of other bytes is answered by what they
/// say there, or by a status. Where a byte or a register is missing, `fault` tells which one was wanted first, so a caller can give it and ask again.
#[unsafe(no_mangle)]
pub extern "C" fn dwframe_unwind_at(
    alloc: Global,
    section: &Section<'_>,
    index: &[Ranged],
    stop: &Stop,
    held: &Held<'_>,
    out: &mut [Register],
    frame: &mut Frame,
    refused: &mut Refused,
    fault: &mut Fault,
) -> u32
    // By the index of an accepted section it tells what `dwframe_unwind` tells.
    ensures own { let told : Told = record { status = result; registers = out.new; frame = frame.new; refusal = refused.new; fault = fault.new } in
        IsOwnUnwound (target_of section.now.address_size section.now.byte_order) (policy_of stop.now.unset) section.now.bytes.now
        index.now stop.now (held_in held.now) out.old told }
    // By any other it tells the frame by the FDE that stands where the index leads, or why there is none.
    ensures any { let told : Told = record { status = result; registers = out.new; frame = frame.new; refusal = refused.new; fault = fault.new } in
        IsAnyUnwound (target_of section.now.address_size section.now.byte_order) (policy_of stop.now.unset) section.now.bytes.now
        index.now stop.now (held_in held.now) out.old told }
{
    *frame = NO_FRAME;
    *refused = Refused::default();
    *fault = Fault::default();
    let Some(target) = target_of(section.address_size, section.byte_order) else {
        return Status::BadArgument as u32;
    };
    let Some(default) = policy_of(stop.unset) else {
        return Status::BadArgument as u32;
    };
    let bytes = section.bytes;
    match unwound_at(alloc, bytes, target, index, stop, default, held, out, frame) {
        Ok(status) => status,
        Err(UnwindAtError::BadIndex) => Status::BadIndex as u32,
        Err(UnwindAtError::Refused(refusal)) => refuse(refused, 1, refusal),
        Err(UnwindAtError::Unwind(error)) => {
            let (status, told) = told_fault(error);
            *fault = told;
            status
        }
    }
}

/// The caller's frame of a machine that stopped: the CFA, and in `out` the registers, ascending. The section is judged first, and
/// the address looked up by its index. Where there is no frame, the refusal or the fault says why, and `out` stays.
#[unsafe(no_mangle)]
pub extern "C" fn dwframe_unwind(
    alloc: Global,
    section: &Section<'_>,
    stop: &Stop,
    held: &Held<'_>,
    out: &mut [Register],
    frame: &mut Frame,
    refused: &mut Refused,
    fault: &mut Fault,
) -> u32
    ensures { let told : Told = record { status = result; registers = out.new; frame = frame.new; refusal = refused.new; fault = fault.new } in
        IsUnwound (target_of section.now.address_size section.now.byte_order) (policy_of stop.now.unset) section.now.bytes.now
        stop.now (held_in held.now) out.old told }
{
    *frame = NO_FRAME;
    *refused = Refused::default();
    *fault = Fault::default();
    let Some(target) = target_of(section.address_size, section.byte_order) else {
        return Status::BadArgument as u32;
    };
    let Some(_) = policy_of(stop.unset) else {
        return Status::BadArgument as u32;
    };
    match check(alloc, section.bytes, target) {
        Ok(table) => {
            let index = table.index();
            dwframe_unwind_at(
                alloc, section, index, stop, held, out, frame, refused, fault,
            )
        }
        Err(ReadError::Refused(refusal)) => refuse(refused, 1, refusal),
        Err(ReadError::OutOfMemory) => Status::OutOfMemory as u32,
    }
}
