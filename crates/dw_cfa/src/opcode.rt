//! Opcodes (7.24), and the operands of instructions.

ghost use Rattle.std.specs.Prelude.{◌≡◌, ◌+◌, ◌*◌, ◌<◌, ◌^◌, ◌*ℤ◌, length, unsigned_abs};
ghost use Rattle.dw_num.specs.Inner.Front.{Gives};
ghost use Rattle.dw_cfa.specs.Inner.{ByOpcode.{offset_in, plain_at, factored_at, signed_at}, FrontInstr.{expression_in, block_at}, Operands.opcode_of};

use crate::instr::Factors;
use dw_num::{Code, Cursor, Refusal, Target, are_bytes};
use dw_op::ExprRef;

/// What a code says of the operands behind it. Three codes hold one in their low six bits.
#[derive(Clone, Copy)]
pub(crate) enum Opcode {
    Nop,
    SetLoc,
    AdvanceLoc(u8),
    AdvanceLoc1,
    AdvanceLoc2,
    AdvanceLoc4,
    Offset(u16),
    OffsetExtended,
    OffsetExtendedSf,
    Restore(u16),
    RestoreExtended,
    Undefined,
    SameValue,
    Register,
    RememberState,
    RestoreState,
    DefCfa,
    DefCfaSf,
    DefCfaRegister,
    DefCfaOffset,
    DefCfaOffsetSf,
    DefCfaExpression,
    Expression,
    ValOffset,
    ValOffsetSf,
    ValExpression,
}

// What a code says: DWARF 5, 7.24.
#[tactic(auto, unfolding(crate::specs::Inner::Operands::opcode_of))]
pub(crate) fn known_opcode(code: u8) -> Option<Opcode>
    ensures { result ≡ opcode_of code }
{
    let opcode = match code {
        0x40..=0x7f => Opcode::AdvanceLoc(code - 0x40),
        0x80..=0xbf => Opcode::Offset(u16::from(code - 0x80)),
        0xc0..=0xff => Opcode::Restore(u16::from(code - 0xc0)),
        0x00 => Opcode::Nop,
        0x01 => Opcode::SetLoc,
        0x02 => Opcode::AdvanceLoc1,
        0x03 => Opcode::AdvanceLoc2,
        0x04 => Opcode::AdvanceLoc4,
        0x05 => Opcode::OffsetExtended,
        0x06 => Opcode::RestoreExtended,
        0x07 => Opcode::Undefined,
        0x08 => Opcode::SameValue,
        0x09 => Opcode::Register,
        0x0a => Opcode::RememberState,
        0x0b => Opcode::RestoreState,
        0x0c => Opcode::DefCfa,
        0x0d => Opcode::DefCfaRegister,
        0x0e => Opcode::DefCfaOffset,
        0x0f => Opcode::DefCfaExpression,
        0x10 => Opcode::Expression,
        0x11 => Opcode::OffsetExtendedSf,
        0x12 => Opcode::DefCfaSf,
        0x13 => Opcode::DefCfaOffsetSf,
        0x14 => Opcode::ValOffset,
        0x15 => Opcode::ValOffsetSf,
        0x16 => Opcode::ValExpression,
        _ => return None,
    };
    Some(opcode)
}

// A product as an offset of the instruction at this place.
#[tactic(auto, unfolding(crate::specs::Inner::ByOpcode::offset_in))]
fn checked_offset(offset: i128, at: u64) -> Result<i64, Refusal>
    ensures { result ≡ offset_in at offset }
{
    match i64::try_from(offset) {
        Ok(offset) if offset != i64::MIN => Ok(offset),
        _ => Err(Refusal {
            code: Code::OffsetTooLarge,
            at,
        }),
    }
}

fn times(operand: i128, factor: i64) -> i128
    requires { unsigned_abs operand < 2 ^ 64 }
    ensures { result ≡ operand *ℤ factor }
{
    operand * i128::from(factor)
}

#[tactic(auto, unfolding(crate::specs::Inner::ByOpcode::plain_at))]
#[inline(always)]
pub(crate) fn plain(cursor: &mut Cursor<'_>, at: u64) -> Result<i64, Refusal>
    ensures { Gives (λ z. z) result (plain_at at cursor.old) cursor.new }
{
    let operand = cursor.uleb()?;
    checked_offset(i128::from(operand), at)
}

#[tactic(auto, unfolding(crate::specs::Inner::ByOpcode::factored_at))]
#[inline(always)]
pub(crate) fn factored(cursor: &mut Cursor<'_>, factors: Factors, at: u64) -> Result<i64, Refusal>
    ensures { Gives (λ z. z) result (factored_at factors at cursor.old) cursor.new }
{
    let operand = cursor.uleb()?;
    checked_offset(times(i128::from(operand), factors.data_factor), at)
}

#[tactic(auto, unfolding(crate::specs::Inner::ByOpcode::signed_at))]
#[inline(always)]
pub(crate) fn signed(cursor: &mut Cursor<'_>, factors: Factors, at: u64) -> Result<i64, Refusal>
    ensures { Gives (λ z. z) result (signed_at factors at cursor.old) cursor.new }
{
    let operand = cursor.sleb()?;
    checked_offset(times(i128::from(operand), factors.data_factor), at)
}

// The expression of a block that stands at this place, with its faults at places of the section.
fn accept_at<'a>(block: &'a [u8], at: u64, target: Target) -> Result<ExprRef<'a>, Refusal>
    requires { at + length block.now < 2 ^ 63 }
    ensures { result ≡ expression_in at target block.now }
{
    are_bytes(block);
    match ExprRef::accept(block, target) {
        Ok(expression) => Ok(expression),
        Err(fault) => Err(Refusal {
            code: fault.code,
            at: at + fault.at,
        }),
    }
}

#[tactic(auto, unfolding(crate::specs::Inner::FrontInstr::block_at))]
pub(crate) fn block<'a>(cursor: &mut Cursor<'a>) -> Result<ExprRef<'a>, Refusal>
    ensures { Gives (λ e. e) result (block_at cursor.old) cursor.new }
{
    let target = cursor.target();
    let len = cursor.uleb()?;
    let at = cursor.at();
    let block = cursor.take(len)?;
    accept_at(block, at, target)
}

#[tactic(auto, using(crate::proofs::Products::distance_fits))]
pub(crate) fn distance(delta: u64, factors: Factors) -> u128
    ensures { result ≡ delta * factors.code_factor }
{
    u128::from(delta) * u128::from(factors.code_factor)
}
