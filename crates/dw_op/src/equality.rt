//! Equality of expressions, and their hash.

ghost use Rattle.std.specs.{Prelude.{◌≡◌, IsTrue, ◌↔◌, map}, List.fold};
ghost use Rattle.dw_op.specs.{Expression.bare, Inner.Equality.{line, op_line, lines_fed}};

use crate::expression::OpSteps;
use crate::op::{Op, alone_code};
use std::hash::{Hash, Hasher};

// What tells an operation from every other: its code, two numbers, a signed one, and bytes.
fn in_line<'a>(op: Op<'a>) -> (u8, u64, u64, i64, &'a [u8])
    ensures { line result.0 result.1 result.2 result.3 result.4.now ≡ op_line op.entry }
{
    let none: &[u8] = &[];
    match op {
        Op::Addr(address) => (0x03, address, 0, 0, none),
        Op::Const(value) => (0x08, value, 0, 0, none),
        Op::Pick(index) => (0x15, u64::from(index), 0, 0, none),
        Op::PlusUconst(number) => (0x23, number, 0, 0, none),
        Op::Bra(index) => (0x28, index as u64, 0, 0, none),
        Op::Skip(index) => (0x2f, index as u64, 0, 0, none),
        Op::Reg(register) => (0x50, u64::from(register), 0, 0, none),
        Op::Breg(register, offset) => (0x70, u64::from(register), 0, offset, none),
        Op::Fbreg(offset) => (0x91, 0, 0, offset, none),
        Op::Piece(size) => (0x93, size, 0, 0, none),
        Op::DerefSize(size) => (0x94, u64::from(size), 0, 0, none),
        Op::BitPiece(size, offset) => (0x9d, size, offset, 0, none),
        Op::Implicit(bytes) => (0x9e, 0, 0, 0, bytes),
        _ => (alone_code(&op), 0, 0, 0, none),
    }
}

fn same_op(a: Op<'_>, b: Op<'_>) -> bool
    ensures { IsTrue result ↔ bare a.entry ≡ bare b.entry }
{
    in_line(a) == in_line(b)
}

/// Whether two walks have the same operations before them.
pub(crate) fn same_steps(mut a: OpSteps<'_>, mut b: OpSteps<'_>) -> bool
    ensures { IsTrue result ↔ a.entry ≡ b.entry }
{
    'ops: loop {
        match (a.step(), b.step()) {
            (None, None) => return true,
            (Some(x), Some(y)) if same_op(x, y) => {}
            _ => return false,
        }
    }
}

pub(crate) fn feed_steps<H: Hasher>(mut steps: OpSteps<'_>, state: &mut H)
    ensures { state.new ≡ fold H.write state.old (lines_fed (map op_line steps.entry)) }
{
    'ops: while let Some(op) = steps.step() {
        in_line(op).hash(state);
    }
}
