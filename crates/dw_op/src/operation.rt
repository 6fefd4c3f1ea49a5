//! The operation at the front of what is left of a block.

ghost use Rattle.std.specs.Prelude.{◌≡◌, ◌≢◌, ◌+◌, ◌%◌, ◌<◌, ◌≤◌, Err};
ghost use Rattle.dw_num.specs.{Target.address_limit, Inner.Front.Gives};
ghost use Rattle.dw_op.specs.declared.{op.Op.TheVariants.{Const, DerefSize}, operation.Step.TheVariants.Plain, profile.Profile.TheVariants.Location};
ghost use Rattle.dw_op.specs.{Operands.{modulo, form_of, one, size}, Inner.FrontOp.{bare_step, is_barred, judged, made, step_of, step_at}};

use crate::op::Op;
use crate::profile::Profile;
use dw_num::{Code, Cursor, Refusal, Size};

#[derive(Clone, Copy)]
pub(crate) enum Branch {
    Bra,
    Skip,
}

/// An operation as its bytes have it: a branch with the two bytes behind its code as a number.
#[derive(Clone, Copy)]
pub(crate) enum Step<'a> {
    Plain(Op<'a>),
    Jump(Branch, u16),
}

// Whether a profile has no operation of a code: those of a rule of a frame give no place, and ask for no object or CFA.
fn is_barred(profile: Profile, code: u8) -> bool
    ensures { result ≡ is_barred profile code }
{
    match profile {
        Profile::Location => false,
        Profile::Frame => matches!(code, 0x50..=0x6f | 0x90 | 0x91 | 0x93 | 0x97 | 0x9c..=0x9f),
    }
}

pub(crate) fn refused<T>(code: Code, at: u64) -> Result<T, Refusal>
    ensures { result ≡ Err (record { code = code; at = at }) }
{
    Err(Refusal { code, at })
}

pub(crate) fn last_address(size: Size) -> u64
    ensures { result + 1 ≡ address_limit size }
{
    (size.address_limit() - 1) as u64
}

// A constant, which is a number modulo 2^N. `constant` takes one that is written as a signed number.
fn natural<'a>(size: Size, number: u64) -> Step<'a>
    ensures { result ≡ Plain (Const (number % address_limit size)) }
{
    match size {
        Size::Four => Step::Plain(Op::Const(number % 0x1_0000_0000)),
        Size::Eight => Step::Plain(Op::Const(number)),
    }
}

fn constant<'a>(size: Size, number: i64) -> Step<'a>
    ensures { result ≡ Plain (Const (modulo (address_limit size) number)) }
{
    natural(size, number.cast_unsigned())
}

// What a code and the number behind it make: an address, or a constant.
fn made<'a>(size: Size, code: u8, number: u64) -> Step<'a>
    ensures { result ≡ Plain (made size code number) }
{
    match code {
        0x03 => Step::Plain(Op::Addr(number)),
        0x09 => constant(size, i64::from(((number % (1 << 8)) as u8).cast_signed())),
        0x0b => constant(size, i64::from(((number % (1 << 16)) as u16).cast_signed())),
        0x0d => constant(size, i64::from(((number % (1 << 32)) as u32).cast_signed())),
        0x0f | 0x11 => constant(size, number.cast_signed()),
        _ => natural(size, number),
    }
}

// A size is from 1 to that of an address.
fn read_deref_size<'a>(cursor: &mut Cursor<'a>) -> Result<Step<'a>, Refusal>
    ensures { Gives bare_step result (step_of (one size DerefSize) cursor.old) cursor.new }
{
    let at = cursor.at();
    let most = cursor.target().size.byte_count();
    match cursor.byte()? {
        size @ 1.. if size <= most => Ok(Step::Plain(Op::DerefSize(size))),
        _ => refused(Code::BadDerefSize, at),
    }
}

// The number behind the code of an address or a constant, as its bits.
#[tactic(auto, unfolding(crate::specs::Operands::form_of))]
fn read_number(cursor: &mut Cursor<'_>, code: u8, at: u64) -> Result<u64, Refusal>
    requires { (code < 0x12) × (code ≢ 0x06) }
    ensures { Gives (λ n. Plain (made cursor.old.target.size code n)) result (judged Location at (form_of cursor.old.target code) cursor.old) cursor.new }
{
    match code {
        0x03 => cursor.address(),
        0x08 => cursor.fixed(1),
        0x09 => cursor.fixed(1),
        0x0a => cursor.fixed(2),
        0x0b => cursor.fixed(2),
        0x0c => cursor.fixed(4),
        0x0d => cursor.fixed(4),
        0x0e => cursor.fixed(8),
        0x0f => cursor.fixed(8),
        0x10 => cursor.uleb(),
        0x11 => Ok(cursor.sleb()?.cast_unsigned()),
        _ => refused(Code::UnknownOperation, at),
    }
}

// An operation on what stands on the stack, or a branch.
#[tactic(auto, unfolding(crate::specs::Operands::form_of))]
fn read_computing<'a>(cursor: &mut Cursor<'a>, code: u8, at: u64) -> Result<Step<'a>, Refusal>
    requires from { 0x12 ≤ code }
    requires below { code < 0x30 }
    ensures { Gives bare_step result (judged Location at (form_of cursor.old.target code) cursor.old) cursor.new }
{
    let op = match code {
        0x12 => Op::Dup,
        0x13 => Op::Drop,
        0x14 => Op::Over,
        0x15 => Op::Pick(cursor.byte()?),
        0x16 => Op::Swap,
        0x17 => Op::Rot,
        0x19 => Op::Abs,
        0x1a => Op::And,
        0x1b => Op::Div,
        0x1c => Op::Minus,
        0x1d => Op::Mod,
        0x1e => Op::Mul,
        0x1f => Op::Neg,
        0x20 => Op::Not,
        0x21 => Op::Or,
        0x22 => Op::Plus,
        0x23 => Op::PlusUconst(cursor.uleb()?),
        0x24 => Op::Shl,
        0x25 => Op::Shr,
        0x26 => Op::Shra,
        0x27 => Op::Xor,
        0x28 => return Ok(Step::Jump(Branch::Bra, cursor.fixed(2)? as u16)),
        0x29 => Op::Eq,
        0x2a => Op::Ge,
        0x2b => Op::Gt,
        0x2c => Op::Le,
        0x2d => Op::Lt,
        0x2e => Op::Ne,
        0x2f => return Ok(Step::Jump(Branch::Skip, cursor.fixed(2)? as u16)),
        _ => return refused(Code::UnknownOperation, at),
    };
    Ok(Step::Plain(op))
}

// An operation of a code from 0x90 on: of registers, pieces and sizes.
#[tactic(auto, unfolding(crate::specs::Operands::form_of))]
fn read_high<'a>(cursor: &mut Cursor<'a>, code: u8, at: u64) -> Result<Step<'a>, Refusal>
    requires { 0x90 ≤ code }
    ensures { Gives bare_step result (judged Location at (form_of cursor.old.target code) cursor.old) cursor.new }
{
    let op = match code {
        0x90 => Op::Reg(cursor.register()?),
        0x91 => Op::Fbreg(cursor.sleb()?),
        0x92 => Op::Breg(cursor.register()?, cursor.sleb()?),
        0x93 => Op::Piece(cursor.uleb()?),
        0x94 => return read_deref_size(cursor),
        0x96 => Op::Nop,
        0x97 => Op::PushObjectAddress,
        0x9c => Op::CallFrameCfa,
        0x9d => Op::BitPiece(cursor.uleb()?, cursor.uleb()?),
        0x9e => {
            let len = cursor.uleb()?;
            Op::Implicit(cursor.take(len)?)
        }
        0x9f => Op::StackValue,
        _ => return refused(Code::UnknownOperation, at),
    };
    Ok(Step::Plain(op))
}

// The operation of a code that was read at a place: DWARF 5, 7.7.1.
#[tactic(auto, unfolding(crate::specs::Operands::form_of))]
fn read_operands<'a>(cursor: &mut Cursor<'a>, code: u8, at: u64) -> Result<Step<'a>, Refusal>
    ensures { Gives bare_step result (judged Location at (form_of cursor.old.target code) cursor.old) cursor.new }
{
    match code {
        0x06 => Ok(Step::Plain(Op::Deref)),
        0x00..=0x11 => Ok(made(cursor.target().size, code, read_number(cursor, code, at)?)),
        0x12..=0x2f => read_computing(cursor, code, at),
        0x30..=0x4f => Ok(Step::Plain(Op::Const(u64::from(code - 0x30)))),
        0x50..=0x6f => Ok(Step::Plain(Op::Reg(u16::from(code - 0x50)))),
        0x70..=0x8f => Ok(Step::Plain(Op::Breg(u16::from(code - 0x70), cursor.sleb()?))),
        0x90.. => read_high(cursor, code, at),
    }
}

#[tactic(auto, using(crate::proofs::Barred::barred, crate::proofs::Barred::passed), unfolding(crate::specs::Inner::FrontOp::step_at))]
pub(crate) fn next_step<'a>(cursor: &mut Cursor<'a>, profile: Profile) -> Result<Step<'a>, Refusal>
    ensures { Gives bare_step result (step_at profile cursor.old) cursor.new }
{
    let at = cursor.at();
    let code = cursor.byte()?;
    if is_barred(profile, code) {
        return refused(Code::NotInFrame, at);
    }
    read_operands(cursor, code, at)
}
