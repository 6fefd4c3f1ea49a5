//! The calls that change what they are lent, a vector or registers, which are as before where a call wants memory.

ghost use Rattle.std.specs.Prelude.{◌<◌};

use super::answers::{changed, say, taken, told};
use dw_eval::Registers;
use dw_num::{Order, put_fixed, put_sleb, put_uleb};
use dw_op::ExprRef;
use std::alloc::AllocError;

const LENT: &[u8] = b"lent";

/// What is appended to a vector.
#[derive(Clone, Copy)]
pub enum Appended<'r, 'a> {
    Unsigned,
    Signed,
    Fixed,
    Least(&'r ExprRef<'a>),
}

fn put(what: Appended<'_, '_>, out: &mut Vec<u8>) -> Result<(), AllocError> {
    match what {
        Appended::Unsigned => put_uleb(out, 0xffff_ffff_ffff_ffff),
        Appended::Signed => put_sleb(out, -0x8000_0000_0000_0000),
        Appended::Fixed => put_fixed(out, Order::Big, 8, 0x0102_0304_0506_0708),
        Appended::Least(expression) => expression.put_least(out),
    }
}

// Where the call wants memory the vector that it was lent has to be as it was.
fn tell(rt: &HostRuntime, put: Result<(), AllocError>, out: &[u8]) {
    if told(rt, put) {
        say(rt, &out);
    } else if out != LENT {
        changed(rt);
    }
}

/// Appends to a vector, and prints the answer and the vector.
pub fn append(rt: &HostRuntime, what: Appended<'_, '_>) {
    if let Some(mut out) = taken(rt, Vec::from_slice(rt.alloc(), LENT)) {
        let answer = put(what, &mut out);
        tell(rt, answer, &out);
    }
}

pub fn all(rt: &HostRuntime) {
    append(rt, Appended::Unsigned);
    append(rt, Appended::Signed);
    append(rt, Appended::Fixed);
}

// Sets a register, and prints what it holds. A refused call leaves it, and the one before it.
fn set(rt: &HostRuntime, registers: &mut Registers, register: u16)
    requires { 0 < register }
{
    let before = (registers.get(register - 1), registers.get(register));
    let answer = registers.set(register, 5);
    let now = (registers.get(register - 1), registers.get(register));
    if told(rt, answer) {
        say(rt, &(register, now.1));
    } else if now != before {
        changed(rt);
    }
}

pub fn registers(rt: &HostRuntime) {
    let mut registers = Registers::new(rt.alloc());
    for register in [1, 2, 40, 300, 65_535] {
        set(rt, &mut registers, register);
    }
}
