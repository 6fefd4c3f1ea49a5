//! One operation (2.5.1).

ghost use Rattle.std.specs.Prelude.{◌≡◌, ℕ, ◌+◌, ◌-◌, ◌^◌, ◌<◌, ◌≤◌, IsTrue, ◌↔◌, Option};
ghost use Rattle.dw_num.specs.Target.{address_limit, byte_count};
ghost use Rattle.dw_op.specs.{Expression.bare, declared.op.Op.TheVariants.{Deref, DerefSize}};
ghost use Rattle.dw_eval.specs.{Context.context, Effect.effect, Inner.Steps.{ActsOn, Does, IsBinary, IsUnary, ReadsTop}};

use crate::arithmetic::{reduced, shifted_left, shifted_right, shifted_signed, signed};
use crate::env::Env;
use crate::error::Kind;
use crate::memory::{Memory, ReadFault};
use crate::stack::{Answer, Flow, Stack, Stop};
use dw_num::Size;
use dw_op::Op;

/// Whether so many bytes, 1 to 8, from an address on end at 2^N or before.
pub fn is_in_space(address: u64, len: usize, size: Size) -> bool
    requires some { 1 ≤ len }
    requires most { len ≤ 8 }
    ensures { IsTrue result ↔ address + len ≤ address_limit size }
{
    match size {
        Size::Four => address <= 0x1_0000_0000 - len as u64,
        Size::Eight => address <= u64::MAX - (len as u64 - 1),
    }
}

// Reads the bytes at the top's address.
#[tactic(auto, using(crate::proofs::Steps::acts_so))]
fn read<M: Memory>(stack: &mut Stack, len: u8, env: &Env<'_>, memory: &mut M) -> Answer
    requires some { 1 ≤ len }
    requires most { len ≤ byte_count env.now.target.size }
    requires room { M.failures memory.old < 2 ^ 64 - 1 }
    ensures same { M.byte memory.new ≡ M.byte memory.old }
    ensures acts { ReadsTop (context env.now (M.byte memory.old)) len stack.old (M.failures memory.old) result stack.new (M.failures memory.new) }
{
    let target = env.target;
    let len = usize::from(len);
    let address = stack.take()?;
    if !is_in_space(address, len, target.size) {
        return Err(Stop::Fault(Kind::Unreadable { address, len }));
    }
    match memory.read(address, len, target.order) {
        Ok(number) => stack.put(reduced(number, target.size)),
        Err(ReadFault::Unreadable) => Err(Stop::Fault(Kind::Unreadable { address, len })),
        Err(ReadFault::Device) => Err(Stop::Device),
    }
}

// Puts what a unary operation makes of the top in its place.
#[inline(always)]
fn change(op: &Op<'_>, stack: &mut Stack, env: &Env<'_>) -> Answer
    requires { IsUnary op.now }
    ensures { (byte : ℕ → Option ℕ) → Does (effect (context env.now byte) (bare op.now) stack.old) result stack.new }
{
    let size = env.target.size;
    let t = stack.take()?;
    let made = match *op {
        Op::Abs => signed(t, size).unsigned_abs(),
        Op::Neg => t.wrapping_neg(),
        Op::Not => !t,
        Op::PlusUconst(number) => t.wrapping_add(number),
        _ => unreachable!(),
    };
    stack.put(reduced(made, size))
}

// Puts what a binary operation makes of the second and the top in their place.
#[inline(always)]
fn combine(op: &Op<'_>, stack: &mut Stack, env: &Env<'_>) -> Answer
    requires { IsBinary op.now }
    ensures { (byte : ℕ → Option ℕ) → Does (effect (context env.now byte) (bare op.now) stack.old) result stack.new }
{
    let size = env.target.size;
    let (s, t) = stack.take_two()?;
    let made = match *op {
        Op::And => reduced(s & t, size),
        Op::Minus => reduced(s.wrapping_sub(t), size),
        Op::Mul => reduced(s.wrapping_mul(t), size),
        Op::Or => reduced(s | t, size),
        Op::Plus => reduced(s.wrapping_add(t), size),
        Op::Shl => shifted_left(s, t, size),
        Op::Shr => shifted_right(s, t, size),
        Op::Shra => shifted_signed(s, t, size),
        Op::Xor => reduced(s ^ t, size),
        Op::Eq => u64::from(s == t),
        Op::Ge => u64::from(signed(s, size) >= signed(t, size)),
        Op::Gt => u64::from(signed(s, size) > signed(t, size)),
        Op::Le => u64::from(signed(s, size) <= signed(t, size)),
        Op::Lt => u64::from(signed(s, size) < signed(t, size)),
        Op::Ne => u64::from(s != t),
        _ => unreachable!(),
    };
    stack.put(made)
}

/// Executes an operation that reads no memory.
#[inline(always)]
pub(crate) fn calculate(op: &Op<'_>, stack: &mut Stack, env: &Env<'_>) -> Answer
    requires { (op.now ≡ Deref → ⊥) × ((len : ℕ) → op.now ≡ DerefSize len → ⊥) }
    ensures { (byte : ℕ → Option ℕ) → Does (effect (context env.now byte) (bare op.now) stack.old) result stack.new }
{
    match *op {
        Op::Addr(number) | Op::Const(number) => stack.put(reduced(number, env.target.size)),
        Op::Dup => stack.pick(0),
        Op::Drop => stack.take().and(Ok(Flow::Next)),
        Op::Over => stack.pick(1),
        Op::Pick(index) => stack.pick(index),
        Op::Swap => stack.swap(),
        Op::Rot => stack.rot(),
        Op::Abs | Op::Neg | Op::Not | Op::PlusUconst(_) => change(op, stack, env),
        Op::Div => stack.div(env.target.size),
        Op::Mod => stack.modulus(env.target.size),
        Op::And | Op::Minus | Op::Mul | Op::Or | Op::Plus | Op::Xor => combine(op, stack, env),
        Op::Shl | Op::Shr | Op::Shra => combine(op, stack, env),
        Op::Eq | Op::Ge | Op::Gt | Op::Le | Op::Lt | Op::Ne => combine(op, stack, env),
        Op::Bra(target) => stack.bra(target),
        Op::Skip(target) => Ok(Flow::Jump(target)),
        Op::Breg(register, by) => {
            let value = env.registers.get(register);
            stack.put_sum(value, by, env.target.size, Kind::NoRegister { register })
        }
        Op::Fbreg(by) => stack.put_sum(env.frame_base, by, env.target.size, Kind::NoFrameBase),
        Op::Nop => Ok(Flow::Next),
        Op::PushObjectAddress => stack.put_sum(env.object, 0, env.target.size, Kind::NoObject),
        Op::CallFrameCfa => stack.put_sum(env.cfa, 0, env.target.size, Kind::NoCfa),
        Op::Deref | Op::DerefSize(_) => unreachable!(),
        Op::Reg(_) | Op::Piece(_) | Op::BitPiece(_, _) | Op::Implicit(_) => Err(Stop::Fault(
            Kind::NotAValue,
        )),
        Op::StackValue => stack.take().and(Err(Stop::Fault(Kind::NotAValue))),
    }
}

#[tactic(auto, using(crate::proofs::Steps::acts_so))]
pub(crate) fn act<M: Memory>(
    op: &Op<'_>,
    stack: &mut Stack,
    env: &Env<'_>,
    memory: &mut M,
) -> Answer
    requires access { (len : ℕ) → op.now ≡ DerefSize len → (1 ≤ len) × (len ≤ byte_count env.now.target.size) }
    requires room { M.failures memory.old < 2 ^ 64 - 1 }
    ensures same { M.byte memory.new ≡ M.byte memory.old }
    ensures acts { ActsOn (context env.now (M.byte memory.old)) (bare op.now) stack.old (M.failures memory.old) result stack.new (M.failures memory.new) }
{
    match *op {
        Op::Deref => read(stack, env.target.size.byte_count(), env, memory),
        Op::DerefSize(len) => read(stack, len, env, memory),
        _ => calculate(op, stack, env),
    }
}
