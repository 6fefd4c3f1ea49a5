//! A CIE's program, and the row that it leaves before an FDE's program (6.4.3).

ghost use Rattle.std.specs.Prelude.{◌≡◌, ◌<◌, Ok, Err, IfErr, IsTrue, OnOk, false, length};
ghost use Rattle.dw_num.specs.Refusals.{Refuses};
ghost use Rattle.dw_row.specs.{Rows.blank, States.BeganWith};
ghost use Rattle.dw_cfa.specs.{Behind.LeavesTo, RowSteps.program_input, declared.instr.{Factors.{Factors as TheFactors}, Instr.TheVariants.Nop}};
ghost use Rattle.dw_cfa.specs.Inner.{Turns.Entered, FrontInstr.instr_at, RowWalk.{HasInitial, IsLed, LeadsSame, ReadAlike, led_row}};

use crate::instr::{Factors, Instr};
use crate::keep::Keep;
use crate::machine::{End, Machine};
use crate::turn::execute;
use dw_num::{Code, Cursor, Program, ReadError, Refusal, Target, are_bytes};
use dw_row::Row;

/// A CIE's program, and what it is read with.
#[derive(Clone, Copy)]
pub(crate) struct Leading<'a> {
    pub(crate) program: Program<'a>,
    pub(crate) factors: Factors,
    pub(crate) target: Target,
}

// Whether the bytes are equal, and what they are read with.
fn is_equal(leading: Leading<'_>, other: Leading<'_>) -> bool
    ensures { IsTrue result → ReadAlike leading.entry other.entry }
{
    if leading.factors != other.factors || leading.target != other.target {
        return false;
    }
    leading.program.bytes == other.program.bytes
}

/// Whether both leave the same row: equal programs are read alike, wherever they stand.
pub(crate) fn leads_same(leading: Leading<'_>, other: Leading<'_>) -> bool
    ensures { IsTrue result → LeadsSame leading.entry other.entry }
{
    are_bytes(leading.program.bytes);
    is_equal(leading, other)
}

// Passes a nop at the front of a CIE's program, which mostly ends in some, and says whether there was one.
#[inline(always)]
fn pass_nop(cursor: &mut Cursor<'_>) -> bool
    requires { 0 < length cursor.old.bytes }
    ensures passed { IsTrue result → (factors : TheFactors) → instr_at factors cursor.old ≡ Ok (Nop, cursor.new) }
    ensures none { result ≡ false → cursor.new ≡ cursor.old }
{
    cursor.rest()[0] == 0 && cursor.byte().is_ok()
}

// Runs an instruction of a CIE's program.
#[tactic(auto, using(crate::proofs::Turns::entered, crate::proofs::Turns::in_limit))]
#[inline(always)]
fn write_one<'a>(
    cursor: &mut Cursor<'a>,
    factors: Factors,
    row: &mut Row<'a>,
    fault: &mut Refusal,
) -> End
    requires { 0 < length cursor.old.bytes }
    ensures { Entered factors cursor.old row.old result fault.new cursor.new row.new }
{
    are_bytes(cursor.rest());
    let at = cursor.at();
    if pass_nop(cursor) {
        return row.take(Instr::Nop, at, fault);
    }
    execute(cursor, factors, row, fault)
}

/// Makes a blank row the one that a CIE's program leaves.
#[tactic(auto, using(crate::proofs::RunSteps::initial_end))]
pub(crate) fn run_initial<'a>(leading: &Leading<'a>, row: &mut Row<'a>) -> Result<(), ReadError>
    requires { row.old ≡ blank }
    ensures ok { OnOk result (led_row leading.now ≡ Ok row.new) }
    ensures err { IfErr result (Refuses (λ r. led_row leading.now ≡ Err r)) }
{
    let program = leading.program;
    let mut cursor = Cursor::new(program.bytes, program.at, leading.target);
    let code = Code::Truncated;
    let mut fault = Refusal { code, at: 0 };
    'instrs: while cursor.left() > 0 {
        match write_one(&mut cursor, leading.factors, row, &mut fault) {
            End::On | End::Moved => {}
            End::Refused => return Err(ReadError::Refused(fault)),
            End::OutOfMemory => return Err(ReadError::OutOfMemory),
        }
    }
    Ok(())
}

/// Runs a CIE's program in a machine. It goes on from the row that is left, remembers none, and tracks no changes.
#[inline(never)]
pub(crate) fn lead<'a>(leading: &Leading<'a>, machine: &mut Machine<'a>) -> Result<(), ReadError>
    ensures ok { OnOk result (IsLed leading.now machine.old machine.new) }
    ensures err { IfErr result (Refuses (λ r. led_row leading.now ≡ Err r)) }
    ensures kept { machine.new.states.kept ≡ machine.old.states.kept }
{
    machine.states.untrack();
    machine.initial.clear();
    run_initial(leading, &mut machine.initial)?;
    Ok(machine.states.rewind(&machine.initial)?)
}

/// Runs a CIE's program, or brings its row back where the machine has it.
#[tactic(auto, using(dw_row::proofs::StatesLaws::began))]
#[inline(always)]
pub(crate) fn ready<'a>(
    leading: &Leading<'a>,
    machine: &mut Machine<'a>,
    kept: &mut bool,
) -> Result<(), ReadError>
    requires kept { IsTrue kept.old → HasInitial leading.now machine.old }
    requires first { BeganWith machine.old.initial machine.old.states.first }
    ensures ok { OnOk result (IsLed leading.now machine.old machine.new) }
    ensures err { IfErr result (Refuses (λ r. led_row leading.now ≡ Err r)) }
    ensures kept { IsTrue kept.new → HasInitial leading.now machine.new }
    ensures kept_row { machine.new.states.kept ≡ machine.old.states.kept }
{
    if *kept {
        machine.states.rewind(&machine.initial)?;
        return Ok(());
    }
    lead(leading, machine)?;
    machine.states.track(machine.initial.is_wide());
    *kept = true;
    Ok(())
}

/// Makes a row the one that a CIE's program (`initial_instructions`, 6.4.1) leaves, or answers its first fault, or want of memory (`OutOfMemory`). A refusal is
/// one of `Instructions`, or `NotInCie` (13) or `CfaNotRegister` (18) at the opcode. Its place counts from the program's `at`. Behind an error it is some row.
pub fn become_initial<'a>(
    row: &mut Row<'a>,
    cie_program: Program<'a>,
    factors: Factors,
    target: Target,
) -> Result<(), ReadError>
    ensures ok { OnOk result (LeavesTo factors (program_input cie_program.entry target) (Ok row.new)) }
    ensures err { IfErr result (Refuses (λ r. LeavesTo factors (program_input cie_program.entry target) (Err r))) }
{
    are_bytes(cie_program.bytes);
    let leading = Leading {
        program: cie_program,
        factors,
        target,
    };
    row.clear();
    run_initial(&leading, row)
}
