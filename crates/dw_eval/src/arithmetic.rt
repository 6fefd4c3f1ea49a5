//! Arithmetic on values: numbers modulo 2^N, where an address has N bits (2.5.1.4).

ghost use Rattle.std.specs.Prelude.{◌≡◌, ◌+◌, ◌*◌, ◌%◌, ◌<◌, pos, ◌+ℤ◌, int_div, if◌then◌else◌};
ghost use Rattle.dw_num.specs.Target.{address_limit};
ghost use Rattle.dw_op.specs.Operands.{modulo};
ghost use Rattle.dw_eval.specs.{Context.signed, Effect.{bit_count, shifted_left, shifted_right, shifted_signed}};

use dw_num::Size;

/// A number modulo 2^N, where an address has N bits.
pub fn reduced(number: u64, size: Size) -> u64
    ensures { result ≡ number % address_limit size }
{
    match size {
        Size::Four => number % 0x1_0000_0000,
        Size::Eight => number,
    }
}

/// A number modulo 2^N, read as signed.
pub(crate) fn signed(number: u64, size: Size) -> i64
    ensures { result ≡ signed size number }
{
    match size {
        Size::Four => {
            let low = (number % 0x1_0000_0000) as u32;
            i64::from(low.cast_signed())
        }
        Size::Eight => number.cast_signed(),
    }
}

/// A signed number modulo 2^N.
pub(crate) fn unsigned(number: i64, size: Size) -> u64
    ensures { result ≡ modulo (address_limit size) number }
{
    reduced(number.cast_unsigned(), size)
}

/// The sum of a number and a signed one, modulo 2^N.
pub fn offset_by(number: u64, by: i64, size: Size) -> u64
    ensures { result ≡ modulo (address_limit size) (pos number +ℤ by) }
{
    reduced(number.wrapping_add_signed(by), size)
}

/// The signed quotient, toward zero. The least number by -1 is itself.
#[tactic(auto, using(crate::proofs::Signed::nonzero))]
pub(crate) fn quotient(s: u64, t: u64, size: Size) -> u64
    requires { 0 < t % address_limit size }
    ensures { result ≡ modulo (address_limit size) (int_div (signed size s) (signed size t)) }
{
    unsigned(signed(s, size).wrapping_div(signed(t, size)), size)
}

fn bit_count(size: Size) -> u64
    ensures { result ≡ bit_count size }
{
    8 * u64::from(size.byte_count())
}

/// A number shifted to the left by any number of bits.
pub(crate) fn shifted_left(s: u64, t: u64, size: Size) -> u64
    ensures { result ≡ shifted_left size s t % address_limit size }
{
    if t < bit_count(size) {
        reduced(s << t, size)
    } else {
        0
    }
}

/// A number shifted to the right by any number of bits.
pub(crate) fn shifted_right(s: u64, t: u64, size: Size) -> u64
    ensures { result ≡ shifted_right size s t % address_limit size }
{
    if t < bit_count(size) {
        reduced(s >> t, size)
    } else {
        0
    }
}

/// A signed number shifted to the right by any number of bits.
pub(crate) fn shifted_signed(s: u64, t: u64, size: Size) -> u64
    ensures { result ≡ modulo (address_limit size) (shifted_signed size s t) }
{
    unsigned(signed(s, size) >> t.min(63), size)
}
