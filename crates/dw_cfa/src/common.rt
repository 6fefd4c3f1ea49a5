//! Instructions that most programs have. They are applied in line while their operands are read.

ghost use Rattle.dw_num.specs.{Fixed.IsWidth};
ghost use Rattle.dw_cfa.specs.Inner.{ByOpcode.{advance_at, def_cfa_at, def_cfa_offset_at, def_cfa_offset_sf_at, offset_at}, Turns.{IsWithinLimit, Taken}};

use crate::instr::Factors;
use crate::keep::Keep;
use crate::machine::{End, refused};
use crate::opcode::{distance, factored, plain, signed};
use dw_num::{Cursor, Refusal};
use dw_row::RegRule;

/// Moves the location on by a delta of so many bytes, which is still to be factored.
#[tactic(auto, unfolding(crate::specs::Inner::ByOpcode::advance_at))]
#[inline(always)]
pub(crate) fn run_fixed_advance<'a, K: Keep<'a>>(
    cursor: &mut Cursor<'a>,
    factors: Factors,
    keep: &mut K,
    at: u64,
    width: usize,
    fault: &mut Refusal,
) -> End
    requires location { IsWithinLimit (K.machine keep.old) }
    requires width { IsWidth width }
    ensures { Taken K.takes (advance_at factors width cursor.old) at keep.old result fault.new cursor.new keep.new }
{
    match cursor.fixed(width) {
        Ok(delta) => keep.advance(distance(delta, factors), at, fault),
        Err(refusal) => refused(refusal, fault),
    }
}

/// The CFA is the same register plus another offset.
#[tactic(auto, unfolding(crate::specs::Inner::ByOpcode::def_cfa_offset_at))]
#[inline(always)]
pub(crate) fn run_def_cfa_offset<'a, K: Keep<'a>>(
    cursor: &mut Cursor<'a>,
    keep: &mut K,
    at: u64,
    fault: &mut Refusal,
) -> End
    requires { IsWithinLimit (K.machine keep.old) }
    ensures { Taken K.takes (def_cfa_offset_at at cursor.old) at keep.old result fault.new cursor.new keep.new }
{
    match plain(cursor, at) {
        Ok(offset) => keep.def_cfa_offset(offset, at, fault),
        Err(refusal) => refused(refusal, fault),
    }
}

/// The same with an offset that is signed and factored.
#[tactic(auto, unfolding(crate::specs::Inner::ByOpcode::def_cfa_offset_sf_at))]
#[inline(always)]
pub(crate) fn run_def_cfa_offset_sf<'a, K: Keep<'a>>(
    cursor: &mut Cursor<'a>,
    factors: Factors,
    keep: &mut K,
    at: u64,
    fault: &mut Refusal,
) -> End
    requires { IsWithinLimit (K.machine keep.old) }
    ensures { Taken K.takes (def_cfa_offset_sf_at factors at cursor.old) at keep.old result fault.new cursor.new keep.new }
{
    match signed(cursor, factors, at) {
        Ok(offset) => keep.def_cfa_offset(offset, at, fault),
        Err(refusal) => refused(refusal, fault),
    }
}

/// The CFA is a register plus an offset.
#[tactic(auto, unfolding(crate::specs::Inner::ByOpcode::def_cfa_at))]
#[inline(always)]
pub(crate) fn run_def_cfa<'a, K: Keep<'a>>(
    cursor: &mut Cursor<'a>,
    keep: &mut K,
    at: u64,
    fault: &mut Refusal,
) -> End
    requires { IsWithinLimit (K.machine keep.old) }
    ensures { Taken K.takes (def_cfa_at at cursor.old) at keep.old result fault.new cursor.new keep.new }
{
    let register = match cursor.register() {
        Ok(register) => register,
        Err(refusal) => return refused(refusal, fault),
    };
    match plain(cursor, at) {
        Ok(offset) => keep.def_cfa(register, offset, at, fault),
        Err(refusal) => refused(refusal, fault),
    }
}

/// A register is saved at the CFA plus an offset, which is factored.
#[tactic(auto, unfolding(crate::specs::Inner::ByOpcode::offset_at))]
#[inline(always)]
pub(crate) fn run_offset<'a, K: Keep<'a>>(
    cursor: &mut Cursor<'a>,
    factors: Factors,
    keep: &mut K,
    at: u64,
    register: u16,
    fault: &mut Refusal,
) -> End
    requires { IsWithinLimit (K.machine keep.old) }
    ensures { Taken K.takes (offset_at factors at register cursor.old) at keep.old result fault.new cursor.new keep.new }
{
    match factored(cursor, factors, at) {
        Ok(offset) => keep.set(register, RegRule::Offset(offset), at, fault),
        Err(refusal) => refused(refusal, fault),
    }
}
