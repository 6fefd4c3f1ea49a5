//! Instructions that few programs have. They are read by a call, so that the loop that runs an FDE's program stays small.

ghost use Rattle.std.specs.Prelude.{◌≡◌, ◌≤◌, IfOk};
ghost use Rattle.dw_num.specs.{Inner.Front.{Gives}, Target.address_limit};
ghost use Rattle.dw_cfa.specs.Inner.{ByOpcode.{offset_extended_at, other_at, rare_at, rule_at}, Steps.InLimit, Turns.{IsWithinLimit, Taken}};

use crate::instr::{Factors, Instr};
use crate::keep::Keep;
use crate::machine::{End, refused};
use crate::opcode::{Opcode, block, distance, factored, signed};
use dw_num::{Cursor, Refusal};
use dw_row::RegRule;

// The rule that an instruction gives the register that was read (6.4.2.3): its operands behind that.
#[tactic(auto, unfolding(crate::specs::Inner::ByOpcode::rule_at))]
fn rule_behind<'a>(
    opcode: Opcode,
    cursor: &mut Cursor<'a>,
    factors: Factors,
    at: u64,
) -> Result<RegRule<'a>, Refusal>
    ensures { Gives (λ rule. rule) result (rule_at factors at opcode cursor.old) cursor.new }
{
    match opcode {
        Opcode::Undefined => Ok(RegRule::Undefined),
        Opcode::SameValue => Ok(RegRule::SameValue),
        Opcode::ValOffset => Ok(RegRule::ValOffset(factored(cursor, factors, at)?)),
        Opcode::ValOffsetSf => Ok(RegRule::ValOffset(signed(cursor, factors, at)?)),
        Opcode::Register => Ok(RegRule::Register(cursor.register()?)),
        _ => {
            let expression = block(cursor)?;
            match opcode {
                Opcode::Expression => Ok(RegRule::Expression(expression)),
                _ => Ok(RegRule::ValExpression(expression)),
            }
        }
    }
}

// A register that an operand names is saved at the CFA plus an offset, which is factored and may be signed.
#[tactic(auto, unfolding(crate::specs::Inner::ByOpcode::offset_extended_at))]
#[inline(always)]
fn run_offset_extended<'a, K: Keep<'a>>(
    cursor: &mut Cursor<'a>,
    factors: Factors,
    keep: &mut K,
    at: u64,
    is_signed: bool,
    fault: &mut Refusal,
) -> End
    requires { IsWithinLimit (K.machine keep.old) }
    ensures { Taken K.takes (offset_extended_at factors at is_signed cursor.old) at keep.old result fault.new cursor.new keep.new }
{
    let register = match cursor.register() {
        Ok(register) => register,
        Err(refusal) => return refused(refusal, fault),
    };
    let offset = if is_signed {
        signed(cursor, factors, at)
    } else {
        factored(cursor, factors, at)
    };
    match offset {
        Ok(offset) => keep.set(register, RegRule::Offset(offset), at, fault),
        Err(refusal) => refused(refusal, fault),
    }
}

// Reads the operands of any other. An address is one of the target's.
#[tactic(auto, unfolding(crate::specs::Inner::ByOpcode::other_at, crate::specs::Inner::ByOpcode::set_loc_at, crate::specs::Inner::ByOpcode::advance_at, crate::specs::Inner::ByOpcode::restore_at, crate::specs::Inner::ByOpcode::def_cfa_sf_at, crate::specs::Inner::ByOpcode::def_cfa_register_at, crate::specs::Inner::ByOpcode::def_cfa_expression_at, crate::specs::Inner::ByOpcode::set_at))]
#[inline(always)]
fn read_other<'a>(
    opcode: Opcode,
    cursor: &mut Cursor<'a>,
    factors: Factors,
    at: u64,
) -> Result<Instr<'a>, Refusal>
    ensures exact { Gives (λ i. i) result (other_at factors at opcode cursor.old) cursor.new }
    ensures limit { IfOk result (InLimit (address_limit cursor.old.target.size)) }
{
    let register = match opcode {
        Opcode::SetLoc => return Ok(Instr::SetLoc(cursor.address()?)),
        Opcode::AdvanceLoc4 => return Ok(Instr::Advance(distance(cursor.fixed(4)?, factors))),
        Opcode::DefCfaExpression => return Ok(Instr::DefCfaExpression(block(cursor)?)),
        _ => cursor.register()?,
    };
    match opcode {
        Opcode::RestoreExtended => Ok(Instr::Restore(register)),
        Opcode::DefCfaRegister => Ok(Instr::DefCfaRegister(register)),
        Opcode::DefCfaSf => {
            let offset = signed(cursor, factors, at)?;
            Ok(Instr::DefCfa { register, offset })
        }
        _ => Ok(Instr::Set(register, rule_behind(opcode, cursor, factors, at)?)),
    }
}

#[tactic(auto, using(crate::proofs::Turns::in_greater_limit), unfolding(crate::specs::Inner::ByOpcode::rare_at))]
fn run_rare<'a, K: Keep<'a>>(
    opcode: Opcode,
    cursor: &mut Cursor<'a>,
    factors: Factors,
    keep: &mut K,
    at: u64,
    fault: &mut Refusal,
) -> End
    requires location { IsWithinLimit (K.machine keep.old) }
    requires limit { address_limit cursor.old.target.size ≤ (K.machine keep.old).limit }
    ensures { Taken K.takes (rare_at factors at opcode cursor.old) at keep.old result fault.new cursor.new keep.new }
{
    match opcode {
        Opcode::OffsetExtended => run_offset_extended(cursor, factors, keep, at, false, fault),
        Opcode::OffsetExtendedSf => run_offset_extended(cursor, factors, keep, at, true, fault),
        _ => match read_other(opcode, cursor, factors, at) {
            Ok(instr) => keep.take(instr, at, fault),
            Err(refusal) => refused(refusal, fault),
        },
    }
}

/// The same with a copy of the cursor: what is lent to a function out of line lies in memory, and the loop's cursor would too.
#[inline(always)]
pub(crate) fn apply_rare<'a, K: Keep<'a>>(
    opcode: Opcode,
    cursor: &mut Cursor<'a>,
    factors: Factors,
    keep: &mut K,
    at: u64,
    fault: &mut Refusal,
) -> End
    requires location { IsWithinLimit (K.machine keep.old) }
    requires limit { address_limit cursor.old.target.size ≤ (K.machine keep.old).limit }
    ensures { Taken K.takes (rare_at factors at opcode cursor.old) at keep.old result fault.new cursor.new keep.new }
{
    let mut own = copied(cursor);
    let end = run_rare(opcode, &mut own, factors, keep, at, fault);
    *cursor = own;
    end
}

#[inline(always)]
pub(crate) fn copied<'a>(cursor: &Cursor<'a>) -> Cursor<'a>
    ensures { result ≡ cursor.now }
{
    Cursor::new(cursor.rest(), cursor.at(), cursor.target())
}
