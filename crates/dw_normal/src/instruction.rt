//! Instructions as the normal form spells them, with the opcodes of table 7.29 as numbers.

ghost use Rattle.std.specs.{Prelude.{◌≡◌, ◌∷◌, ◌+◌, ◌++◌, ◌<◌, ◌≤◌, neg_ℤ, unsigned_abs, if◌then◌else◌, OnOk}, Int.is_positive, List.AllByRecursion};
ghost use Rattle.dw_num.specs.{Shortest.{shortest_uleb, shortest_sleb}, Target.address_limit};
ghost use Rattle.dw_row.specs.{Rows.rule, Inner.Agreement.same_cfa};
ghost use Rattle.dw_cfa.specs.{InstrSpells.IsOffset, declared.instr.Instr.TheVariants.DefCfaOffset};
ghost use Rattle.dw_section.specs.Fits.{HasBlock, RuleFits};
ghost use Rattle.dw_canon.specs.{Difference.move, Spelling.packed};
ghost use Rattle.dw_canon.specs.Inner.{Difference.cfa_difference, Fits.InstrFits, Spelling.{expression_bytes, rule_bytes, instr_bytes, program_bytes}};

use dw_num::{Target, put_fixed, put_sleb, put_uleb};
use dw_op::ExprRef;
use dw_row::{CfaRule, RegRule, Row};
use std::alloc::AllocError;

/// What is answered where bytes are appended: want of memory, or nothing.
pub(crate) type Appended = Result<(), AllocError>;

#[inline(always)]
#[tactic(auto, using(crate::proofs::OneByte::one_byte, dw_num::proofs::Lent::Shortest::puts_uleb))]
pub(crate) fn push_uleb(out: &mut Vec<u8>, value: u64) -> Appended
    ensures { OnOk result (out.new.items ≡ out.old.items ++ shortest_uleb value) }
{
    if value < 128 {
        out.push(value as u8)?;
        return Ok(());
    }
    put_uleb(out, value)
}

// Apart from `push_with`, whose numbers are mostly small. Most others have two bytes.
#[inline(never)]
fn push_long_with(out: &mut Vec<u8>, code: u8, value: u64) -> Appended
    requires { 128 ≤ value }
    ensures { OnOk result (out.new.items ≡ out.old.items ++ code ∷ shortest_uleb value) }
{
    if value < 16384 {
        out.reserve(3)?;
        out.push_reserved(code);
        out.push_reserved((value % 128) as u8 + 128);
        out.push_reserved((value / 128) as u8);
        return Ok(());
    }
    out.push(code)?;
    push_uleb(out, value)
}

// Appends a code and the shortest spelling of an unsigned number behind it: mostly two bytes, for which room is made once.
#[inline(always)]
fn push_with(out: &mut Vec<u8>, code: u8, value: u64) -> Appended
    ensures { OnOk result (out.new.items ≡ out.old.items ++ code ∷ shortest_uleb value) }
{
    if value < 128 {
        out.reserve(2)?;
        out.push_reserved(code);
        out.push_reserved(value as u8);
        return Ok(());
    }
    push_long_with(out, code, value)
}

#[tactic(auto, using(dw_num::proofs::Lent::Shortest::puts_sleb))]
fn push_sleb(out: &mut Vec<u8>, value: i64) -> Appended
    ensures { OnOk result (out.new.items ≡ out.old.items ++ shortest_sleb value) }
{
    put_sleb(out, value)
}

/// Appends a code with the register in it where that is below 64, else another with the register behind it.
#[inline(always)]
pub(crate) fn push_packed(out: &mut Vec<u8>, low: u8, code: u8, register: u16) -> Appended
    requires { low < 193 }
    ensures { OnOk result (out.new.items ≡ out.old.items ++ packed low code register) }
{
    if register < 64 {
        out.push(low + register as u8)?;
        return Ok(());
    }
    out.push(code)?;
    push_uleb(out, u64::from(register))
}

// Appends what moves the location far. Apart from `push_move`, whose advances are mostly short.
#[inline(never)]
#[tactic(auto, unfolding(dw_canon::specs::Spelling::instr_bytes))]
fn push_far_move(out: &mut Vec<u8>, from: u64, to: u64, target: Target) -> Appended
    requires far { from + 64 ≤ to }
    requires in_space { to < address_limit target.size }
    ensures { OnOk result (out.new.items ≡ out.old.items ++ instr_bytes target (move from to)) }
{
    let delta = to - from;
    if delta < 256 {
        out.reserve(2)?;
        out.push_reserved(0x02);
        out.push_reserved(delta as u8);
        return Ok(());
    }
    if delta < 65536 {
        out.push(0x03)?;
        return put_fixed(out, target.order, 2, delta);
    }
    if delta < 4294967296 {
        out.push(0x04)?;
        return put_fixed(out, target.order, 4, delta);
    }
    out.push(0x01)?;
    let width = usize::from(target.size.byte_count());
    put_fixed(out, target.order, width, to)
}

/// Appends what moves the location, mostly by a few bytes.
#[inline(always)]
#[tactic(auto, unfolding(dw_canon::specs::Spelling::instr_bytes))]
pub(crate) fn push_move(out: &mut Vec<u8>, from: u64, to: u64, target: Target) -> Appended
    requires rises { from < to }
    requires in_space { to < address_limit target.size }
    ensures { OnOk result (out.new.items ≡ out.old.items ++ instr_bytes target (move from to)) }
{
    if to - from < 64 {
        out.push(0x40 + (to - from) as u8)?;
        return Ok(());
    }
    push_far_move(out, from, to, target)
}

fn push_expression(expression: &ExprRef<'_>, out: &mut Vec<u8>, target: Target) -> Appended
    requires { HasBlock target expression.now }
    ensures { OnOk result (out.new.items ≡ out.old.items ++ expression_bytes target expression.now) }
{
    push_uleb(out, expression.least_len() as u64)?;
    expression.put_least(out)
}

// Appends a code, a register and an expression.
#[inline(always)]
fn push_block(
    block: &ExprRef<'_>,
    out: &mut Vec<u8>,
    code: u8,
    register: u16,
    target: Target,
) -> Appended
    requires { HasBlock target block.now }
    ensures { OnOk result (out.new.items ≡ out.old.items ++ code ∷ (shortest_uleb register ++ expression_bytes target block.now)) }
{
    push_with(out, code, u64::from(register))?;
    push_expression(block, out, target)
}

// Appends a code, a register and an unsigned number.
#[inline(always)]
fn push_both(out: &mut Vec<u8>, code: u8, register: u16, value: u64) -> Appended
    ensures { OnOk result (out.new.items ≡ out.old.items ++ code ∷ (shortest_uleb register ++ shortest_uleb value)) }
{
    push_with(out, code, u64::from(register))?;
    push_uleb(out, value)
}

// Appends a code, a register and a signed number.
#[inline(always)]
fn push_signed(out: &mut Vec<u8>, code: u8, register: u16, value: i64) -> Appended
    ensures { OnOk result (out.new.items ≡ out.old.items ++ code ∷ (shortest_uleb register ++ shortest_sleb value)) }
{
    push_with(out, code, u64::from(register))?;
    push_sleb(out, value)
}

/// Appends a register that is saved at an offset from the CFA.
#[inline(always)]
pub(crate) fn push_offset(out: &mut Vec<u8>, register: u16, offset: i64) -> Appended
    requires { IsOffset offset }
    ensures { OnOk result (out.new.items ≡ out.old.items ++ (if is_positive offset
        then 0x11 ∷ (shortest_uleb register ++ shortest_sleb (neg_ℤ offset))
        else packed 0x80 0x05 register ++ shortest_uleb (unsigned_abs offset))) }
{
    if offset > 0 {
        return push_signed(out, 0x11, register, -offset);
    }
    if register < 64 {
        return push_with(out, 0x80 + register as u8, offset.unsigned_abs());
    }
    push_packed(out, 0x80, 0x05, register)?;
    push_uleb(out, offset.unsigned_abs())
}

/// Appends what gives a register its rule of a row. Out of line: room for a rule is cleared at each register else.
#[inline(never)]
pub(crate) fn push_rule(row: &Row<'_>, out: &mut Vec<u8>, register: u16, target: Target) -> Appended
    requires { RuleFits target (rule row.now register) }
    ensures { OnOk result (out.new.items ≡ out.old.items ++ rule_bytes target register (rule row.now register)) }
{
    match &row.rule(register) {
        RegRule::Unspecified => Ok(()),
        RegRule::Undefined => push_with(out, 0x07, u64::from(register)),
        RegRule::SameValue => push_with(out, 0x08, u64::from(register)),
        RegRule::Offset(offset) => push_offset(out, register, *offset),
        RegRule::ValOffset(offset) if *offset > 0 => push_signed(out, 0x15, register, -*offset),
        RegRule::ValOffset(offset) => push_both(out, 0x14, register, offset.unsigned_abs()),
        RegRule::Register(other) => push_both(out, 0x09, register, u64::from(*other)),
        RegRule::Expression(block) => push_block(block, out, 0x10, register, target),
        RegRule::ValExpression(block) => push_block(block, out, 0x16, register, target),
    }
}

#[inline(always)]
#[tactic(auto, unfolding(dw_canon::specs::Spelling::instr_bytes))]
pub(crate) fn push_cfa_offset(out: &mut Vec<u8>, offset: i64, target: Target) -> Appended
    requires { InstrFits target (DefCfaOffset offset) }
    ensures { OnOk result (out.new.items ≡ out.old.items ++ instr_bytes target (DefCfaOffset offset)) }
{
    if offset < 0 {
        out.push(0x13)?;
        return push_sleb(out, -offset);
    }
    push_with(out, 0x0e, offset.unsigned_abs())
}

#[inline(always)]
fn stays<'a>(old: &CfaRule<'a>, new: &CfaRule<'a>) -> bool
    ensures { result ≡ same_cfa old.now new.now }
{
    old.is_same(new)
}

/// Appends what leads from one rule of the CFA to another.
#[inline(never)]
#[tactic(auto, unfolding(dw_canon::specs::Spelling::instr_bytes))]
pub(crate) fn push_other_cfa<'a>(
    old: &CfaRule<'a>,
    new: &CfaRule<'a>,
    out: &mut Vec<u8>,
    target: Target,
) -> Appended
    requires { AllByRecursion (InstrFits target) (cfa_difference old.now new.now) }
    ensures { OnOk result (out.new.items ≡ out.old.items ++ program_bytes target (cfa_difference old.now new.now)) }
{
    if stays(old, new) {
        return Ok(());
    }
    match new {
        CfaRule::Unset => Ok(()),
        CfaRule::Expression(expression) => {
            out.push(0x0f)?;
            push_expression(expression, out, target)
        }
        CfaRule::Register { register, offset } => match old {
            CfaRule::Register { register: r, .. } if *r == *register => {
                push_cfa_offset(out, *offset, target)
            }
            CfaRule::Register { offset: n, .. } if *n == *offset => {
                push_with(out, 0x0d, u64::from(*register))
            }
            _ if *offset < 0 => push_signed(out, 0x12, *register, -*offset),
            _ => push_both(out, 0x0c, *register, offset.unsigned_abs()),
        },
    }
}
