//! One turn of the loop that runs a program: an opcode is read, and its instruction applied to what is kept while its operands are read.

ghost use Rattle.std.specs.Prelude.{◌<◌, ◌≤◌, length, false};
ghost use Rattle.dw_num.specs.Target.{address_limit};
ghost use Rattle.dw_cfa.specs.Inner.{ByOpcode.operands_at, FrontInstr.instr_at, Runs.RunsSo, Turns.{Does, IsWithinLimit, Stays, Taken, Turned}};

use crate::common::{
    run_def_cfa, run_def_cfa_offset, run_def_cfa_offset_sf, run_fixed_advance, run_offset,
};
use crate::instr::Factors;
use crate::keep::Keep;
use crate::machine::{End, Machine, refuse, refused};
use crate::opcode::{Opcode, distance, known_opcode};
use crate::rare::apply_rare;
use dw_num::{Code, Cursor, Refusal, are_bytes};

// Reads the operands behind an opcode, and applies the instruction to the machine.
#[tactic(auto, unfolding(crate::specs::Inner::ByOpcode::operands_at))]
#[inline(always)]
fn apply<'a, K: Keep<'a>>(
    opcode: Opcode,
    cursor: &mut Cursor<'a>,
    factors: Factors,
    keep: &mut K,
    at: u64,
    fault: &mut Refusal,
) -> End
    requires location { IsWithinLimit (K.machine keep.old) }
    requires limit { address_limit cursor.old.target.size ≤ (K.machine keep.old).limit }
    ensures { Taken K.takes (operands_at factors at opcode cursor.old) at keep.old result fault.new cursor.new keep.new }
{
    match opcode {
        Opcode::AdvanceLoc(delta) => {
            keep.advance(distance(u64::from(delta), factors), at, fault)
        }
        Opcode::AdvanceLoc1 => run_fixed_advance(cursor, factors, keep, at, 1, fault),
        Opcode::AdvanceLoc2 => run_fixed_advance(cursor, factors, keep, at, 2, fault),
        Opcode::DefCfa => run_def_cfa(cursor, keep, at, fault),
        Opcode::DefCfaOffset => run_def_cfa_offset(cursor, keep, at, fault),
        Opcode::DefCfaOffsetSf => run_def_cfa_offset_sf(cursor, factors, keep, at, fault),
        Opcode::Offset(register) => run_offset(cursor, factors, keep, at, register, fault),
        Opcode::Nop | Opcode::Restore(_) | Opcode::RememberState | Opcode::RestoreState => {
            keep.take_bare(opcode, at, fault)
        }
        _ => apply_rare(opcode, cursor, factors, keep, at, fault),
    }
}

/// Runs the instruction at the front of a program. A refusal is written where the caller says.
#[tactic(auto, using(crate::proofs::Tabled::opened), unfolding(crate::specs::Inner::FrontInstr::instr_at))]
#[inline(always)]
pub(crate) fn execute<'a, K: Keep<'a>>(
    cursor: &mut Cursor<'a>,
    factors: Factors,
    keep: &mut K,
    fault: &mut Refusal,
) -> End
    requires within { IsWithinLimit (K.machine keep.old) }
    requires limit { address_limit cursor.old.target.size ≤ (K.machine keep.old).limit }
    ensures { Taken K.takes (instr_at factors cursor.old) cursor.old.at keep.old result fault.new cursor.new keep.new }
{
    let at = cursor.at();
    let code = match cursor.byte() {
        Ok(code) => code,
        Err(refusal) => return refused(refusal, fault),
    };
    match known_opcode(code) {
        Some(opcode) => apply(opcode, cursor, factors, keep, at, fault),
        None => refuse(Code::UnknownInstruction, at, fault),
    }
}

/// The same of an FDE's program, in the rows still to come.
#[tactic(auto, using(crate::proofs::Turns::stays, crate::proofs::Turns::turned))]
#[inline(always)]
pub(crate) fn turn<'a, K: Keep<'a>>(
    cursor: &mut Cursor<'a>,
    factors: Factors,
    keep: &mut K,
    fault: &mut Refusal,
) -> End
    requires fde { Does false K.machine K.takes }
    requires some { 0 < length cursor.old.bytes }
    requires so { RunsSo (K.machine keep.old) cursor.old }
    ensures turned { Turned factors cursor.old (K.machine keep.old) result fault.new cursor.new (K.machine keep.new) }
    ensures same { Stays (K.machine keep.old) (K.machine keep.new) }
{
    are_bytes(cursor.rest());
    execute(cursor, factors, keep, fault)
}

/// The same of a machine.
#[inline(always)]
pub(crate) fn turn_machine<'a>(
    cursor: &mut Cursor<'a>,
    factors: Factors,
    machine: &mut Machine<'a>,
    fault: &mut Refusal,
) -> End
    requires some { 0 < length cursor.old.bytes }
    requires so { RunsSo machine.old cursor.old }
    ensures turned { Turned factors cursor.old machine.old result fault.new cursor.new machine.new }
    ensures same { Stays machine.old machine.new }
{
    turn(cursor, factors, machine, fault)
}
