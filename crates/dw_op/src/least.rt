//! The least spelling of an operation.

ghost use Rattle.std.specs.Prelude.{◌≡◌, ◌++◌, OnOk, take, ℕ, ◌-◌, ◌<◌, ◌^◌, length};
ghost use Rattle.dw_num.specs.{Target.address_limit, declared.target.Order.Order};
ghost use Rattle.dw_op.specs.{Expression.bare, Inner.LeastOf.{Puts, address, operand_bytes, least_bytes}};
ghost use Rattle.dw_op.specs.Inner.LeastOf.{constant, register_form, register_offset, least_spelling};

use crate::op::{Op, alone_code};
use crate::operation::last_address;
use dw_num::{Order, Size, Target, put_fixed, put_sleb, put_uleb, sleb_len, uleb_len};
use std::alloc::AllocError;

/// What follows an opcode.
#[derive(Clone, Copy)]
pub(crate) enum Operand<'a> {
    Nothing,
    /// A number of one, two, four or eight bytes.
    Byte(u8),
    Half(u16),
    Word(u32),
    Double(u64),
    /// An unsigned LEB128 number.
    Unsigned(u64),
    /// A signed LEB128 number.
    Signed(i64),
    /// A register and an offset.
    Offset(u16, i64),
    /// Two unsigned LEB128 numbers.
    Pair(u64, u64),
    /// A length, and so many bytes.
    Block(&'a [u8]),
}

/// A spelling of an operation: its code, and what follows it.
pub(crate) type Spelling<'a> = (u8, Operand<'a>);

// A constant, which is by `under` below the greatest one.
fn constant<'a>(value: u64, under: u64) -> Spelling<'a>
    ensures { result ≡ constant value under }
{
    if value < 32 {
        (0x30 + value as u8, Operand::Nothing)
    } else if value < 1 << 8 {
        (0x08, Operand::Byte(value as u8))
    } else if under < 1 << 7 {
        (0x09, Operand::Byte((value % (1 << 8)) as u8))
    } else if value < 1 << 16 {
        (0x0a, Operand::Half(value as u16))
    } else if under < 1 << 15 {
        (0x0b, Operand::Half((value % (1 << 16)) as u16))
    } else if value < 1 << 21 {
        (0x10, Operand::Unsigned(value))
    } else if under < 1 << 20 {
        (0x11, Operand::Signed(-1 - under as i64))
    } else if value < 1 << 32 {
        (0x0c, Operand::Word(value as u32))
    } else if under < 1 << 31 {
        (0x0d, Operand::Word((value % (1 << 32)) as u32))
    } else if value < 1 << 49 {
        (0x10, Operand::Unsigned(value))
    } else if under < 1 << 48 {
        (0x11, Operand::Signed(-1 - under as i64))
    } else {
        (0x0e, Operand::Double(value))
    }
}

fn register<'a>(register: u16) -> Spelling<'a>
    ensures { result ≡ register_form register }
{
    if register < 32 {
        (0x50 + register as u8, Operand::Nothing)
    } else {
        (0x90, Operand::Unsigned(u64::from(register)))
    }
}

fn register_offset<'a>(register: u16, offset: i64) -> Spelling<'a>
    ensures { result ≡ register_offset register offset }
{
    if register < 32 {
        (0x70 + register as u8, Operand::Signed(offset))
    } else {
        (0x92, Operand::Offset(register, offset))
    }
}

/// The least spelling of an operation, with these sixteen bits for a branch's displacement (DWARF 5, 7.7.1).
#[tactic(auto, unfolding(crate::specs::Inner::LeastOf::least_spelling))]
pub(crate) fn least_spelling<'a>(op: &Op<'a>, displacement: u16, target: Target) -> Spelling<'a>
    ensures { result ≡ least_spelling target displacement op.now }
{
    match *op {
        Op::Addr(value) => match target.size {
            Size::Four => (0x03, Operand::Word((value % (1 << 32)) as u32)),
            Size::Eight => (0x03, Operand::Double(value)),
        },
        Op::Const(value) => constant(value, last_address(target.size).saturating_sub(value)),
        Op::Pick(index) => (0x15, Operand::Byte(index)),
        Op::PlusUconst(number) => (0x23, Operand::Unsigned(number)),
        Op::Bra(_) => (0x28, Operand::Half(displacement)),
        Op::Skip(_) => (0x2f, Operand::Half(displacement)),
        Op::Reg(number) => register(number),
        Op::Breg(number, offset) => register_offset(number, offset),
        Op::Fbreg(offset) => (0x91, Operand::Signed(offset)),
        Op::Piece(size) => (0x93, Operand::Unsigned(size)),
        Op::DerefSize(size) => (0x94, Operand::Byte(size)),
        Op::BitPiece(size, offset) => (0x9d, Operand::Pair(size, offset)),
        Op::Implicit(bytes) => (0x9e, Operand::Block(bytes)),
        _ => (alone_code(op), Operand::Nothing),
    }
}

fn operand_len(operand: Operand<'_>) -> usize
    ensures len { (order : Order) → result ≡ length (operand_bytes order operand.entry) }
    ensures most { result < 2 ^ 64 - 1 }
{
    match operand {
        Operand::Nothing => 0,
        Operand::Byte(_) => 1,
        Operand::Half(_) => 2,
        Operand::Word(_) => 4,
        Operand::Double(_) => 8,
        Operand::Unsigned(value) => uleb_len(value),
        Operand::Signed(value) => sleb_len(value),
        Operand::Offset(register, offset) => uleb_len(u64::from(register)) + sleb_len(offset),
        Operand::Pair(first, second) => uleb_len(first) + uleb_len(second),
        Operand::Block(bytes) => uleb_len(bytes.len() as u64) + bytes.len(),
    }
}

pub(crate) fn op_least_len(op: &Op<'_>, target: Target) -> usize
    ensures { (bits : ℕ) → result ≡ length (least_bytes target bits (bare op.now)) }
{
    1 + operand_len(least_spelling(op, 0, target).1)
}

// Appends an operand, and may leave some of it where memory runs out.
fn push_operand(out: &mut Vec<u8>, order: Order, operand: Operand<'_>) -> Result<(), AllocError>
    ensures { Puts result out.old.items out.new.items (operand_bytes order operand.entry) }
{
    match operand {
        Operand::Nothing => Ok(()),
        Operand::Byte(value) => put_fixed(out, order, 1, u64::from(value)),
        Operand::Half(value) => put_fixed(out, order, 2, u64::from(value)),
        Operand::Word(value) => put_fixed(out, order, 4, u64::from(value)),
        Operand::Double(value) => put_fixed(out, order, 8, value),
        Operand::Unsigned(value) => put_uleb(out, value),
        Operand::Signed(value) => put_sleb(out, value),
        Operand::Offset(register, offset) => {
            put_uleb(out, u64::from(register))?;
            put_sleb(out, offset)
        }
        Operand::Pair(first, second) => {
            put_uleb(out, first)?;
            put_uleb(out, second)
        }
        Operand::Block(bytes) => {
            put_uleb(out, bytes.len() as u64)?;
            out.extend_from_slice(bytes)
        }
    }
}

/// Appends the least spelling of an operation, with these sixteen bits for a branch's displacement. It may leave some of it where memory runs out.
pub(crate) fn put_op(
    out: &mut Vec<u8>,
    op: &Op<'_>,
    displacement: u16,
    target: Target,
) -> Result<(), AllocError>
    ensures ok { OnOk result (out.new.items ≡ out.old.items ++ least_bytes target displacement (bare op.now)) }
    ensures front { take (length out.old.items) out.new.items ≡ out.old.items }
{
    let (code, operand) = least_spelling(op, displacement, target);
    out.push(code)?;
    push_operand(out, target.order, operand)
}
