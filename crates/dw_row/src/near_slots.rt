//! Slots of registers under a mask: a slot that the mask has not is never read.

ghost use Rattle.std.specs.{Prelude.{◌≡◌, ◌<◌, ◌≤◌, ◌↔◌, ◌-◌, ◌*◌, ◌^◌, ◌%◌, IsTrue, bit_and, nat_eq}, Int.bit_at};
ghost use Rattle.dw_row.specs.{Rows.rule_in, Inner.Entries.{FirstBit, FirstIn, HasRoom, SameOutside, SameSlots, slot_rule}};

use crate::rule::RegRule;
use crate::slot::{Slot, Slots, register_in, rule_of};
use std::collections::BTreeMap;

// What stands before the upper half of a mask.
const HALF: u128 = 1 << 64;

/// The mask that has one register. By halves, since a shift of 128 bits costs more.
#[inline(always)]
#[tactic(auto, using(crate::proofs::Slots::low_bit, crate::proofs::Slots::high_bit))]
pub(crate) fn bit_of(register: u16) -> u128
    requires { register < 128 }
    ensures { result ≡ 1 * 2 ^ register % 2 ^ 128 }
{
    if register < 64 {
        return u128::from(1_u64 << register);
    }
    u128::from(1_u64 << (register - 64)) << 64
}

/// Whether a register is in a mask, of which one half is looked at.
#[tactic(auto, using(crate::proofs::Slots::high_half, crate::proofs::Slots::low_half))]
#[inline(always)]
pub fn is_in(mask: u128, register: u16) -> bool
    requires { register < 128 }
    ensures { result ≡ nat_eq (bit_at mask register) 1 }
{
    if register < 64 {
        return ((mask % HALF) as u64 >> register) % 2 == 1;
    }
    ((mask >> 64) as u64 >> (register - 64)) % 2 == 1
}

// The first bit from a place on of one half of a mask.
#[inline(always)]
#[tactic(auto, using(crate::proofs::Slots::no_bits, crate::proofs::Slots::lowest_bit))]
fn next_in_half(half: u64, place: u32) -> Option<u32>
    requires { place < 64 }
    ensures { FirstIn 64 result half place }
{
    let left = half >> place;
    if left == 0 {
        return None;
    }
    Some(place + left.trailing_zeros())
}

// The first register from a place on that is in the upper half of a mask.
#[inline(always)]
fn next_high(mask: u128, place: u32) -> Option<u32>
    requires from { 64 ≤ place }
    requires to { place < 128 }
    ensures { FirstBit result mask place }
{
    match next_in_half((mask >> 64) as u64, place - 64) {
        Some(bit) => Some(bit + 64),
        None => None,
    }
}

/// The first register from a place on that is in a mask.
#[inline(always)]
pub(crate) fn next_in(mask: u128, place: u32) -> Option<u32>
    ensures { FirstBit result mask place }
{
    if place >= 128 {
        return None;
    }
    if place >= 64 {
        return next_high(mask, place);
    }
    match next_in_half((mask % HALF) as u64, place) {
        Some(bit) => Some(bit),
        None => next_high(mask, 64),
    }
}

/// A mask without its first register. By halves, as it is read.
#[inline(always)]
#[tactic(auto, using(crate::proofs::Slots::low_taken, crate::proofs::Slots::high_taken))]
pub(crate) fn without_first(mask: u128) -> u128
    ensures { result ≡ bit_and mask (mask - 1) }
{
    let low = (mask % HALF) as u64;
    let high = (mask >> 64) as u64;
    if low != 0 {
        return u128::from(high) << 64 | u128::from(low & (low - 1));
    }
    u128::from(high & high.wrapping_sub(1)) << 64
}

// Sets the slots of a mask to those of others.
#[inline(always)]
#[tactic(auto, using(crate::proofs::Copied::all_copied, crate::proofs::Copied::fewer_left))]
pub(crate) fn copy_slots(slots: &mut Slots, others: &Slots, mask: u128)
    requires slots { HasRoom slots.old }
    requires others { HasRoom others.now }
    ensures slots { HasRoom slots.new }
    ensures copied { SameSlots mask others.now slots.new }
    ensures stays { SameOutside mask slots.old slots.new }
{
    let mut left = mask;
    'slots: while let Some(register) = next_in(left, 0) {
        slots.set(register as u16, others.get(register as u16));
        left = without_first(left);
    }
}

// Whether two slots of a register give it the same rule, whatever they hold.
#[inline(never)]
fn same_rules(
    slot: (Slot, i64),
    other: (Slot, i64),
    expressions: &BTreeMap<u16, RegRule<'_>>,
    others: &BTreeMap<u16, RegRule<'_>>,
    register: u16,
) -> bool
    ensures { IsTrue result ↔ (slot_rule slot (rule_in expressions.now.entries register) ≡ slot_rule other (rule_in others.now.entries register)) }
{
    rule_of(slot, expressions, register).is_same(&rule_of(other, others, register))
}

/// The same, with no look at the trees where neither holds an expression.
#[inline(always)]
pub(crate) fn same_slots(
    slot: (Slot, i64),
    other: (Slot, i64),
    expressions: &BTreeMap<u16, RegRule<'_>>,
    others: &BTreeMap<u16, RegRule<'_>>,
    register: u16,
) -> bool
    ensures { IsTrue result ↔ (slot_rule slot (rule_in expressions.now.entries register) ≡ slot_rule other (rule_in others.now.entries register)) }
{
    match (slot.0, other.0) {
        (Slot::Beside, _) | (_, Slot::Beside) => same_rules(
            slot,
            other,
            expressions,
            others,
            register,
        ),
        (Slot::Undefined, Slot::Undefined) | (Slot::SameValue, Slot::SameValue) => true,
        (Slot::Offset, Slot::Offset) | (Slot::ValOffset, Slot::ValOffset) => slot.1 == other.1,
        (Slot::Register, Slot::Register) => register_in(slot.1) == register_in(other.1),
        _ => false,
    }
}
