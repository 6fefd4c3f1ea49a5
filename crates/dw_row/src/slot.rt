//! What a slot of a row holds: the rule of one register (6.4.1).

ghost use Rattle.std.specs.{Prelude.{◌≡◌, ◌<◌, ◌%◌, IfNone, IfSome, MatchOption}, Int.{cast_unsigned, w64}};
ghost use Rattle.dw_row.specs.{Rows.{IsOffset, rule_in}, declared.{rule.{RegRule.{RegRule as TheRule, TheVariants.Offset}}, slot.Slot.TheVariants.Beside}};
ghost use Rattle.dw_row.specs.Inner.Entries.{HasRoom, HasSlot, IsSlotOf, set_at, slot_at, slot_rule};

use crate::rule::RegRule;
use crate::tree::rule_in_tree;
use std::collections::BTreeMap;

/// The kind of a register's rule, in one byte. `Beside` says that the rule is kept beside the slots: one with an expression.
#[derive(Clone, Copy)]
pub(crate) enum Slot {
    Undefined,
    SameValue,
    Offset,
    ValOffset,
    Register,
    Beside,
}

/// The kinds of the rules of registers below 128, and their offsets and registers as numbers.
#[derive(Drop)]
pub(crate) struct Slots {
    pub(crate) kinds: [Slot; 128],
    pub(crate) numbers: [i64; 128],
}

impl Slots {
    #[inline(always)]
    pub(crate) fn get(&self, register: u16) -> (Slot, i64)
        requires room { HasRoom self.now }
        requires near { register < 128 }
        ensures { result ≡ slot_at self.now register }
    {
        let place = usize::from(register);
        (self.kinds[place], self.numbers[place])
    }

    #[inline(always)]
    pub(crate) fn set(&mut self, register: u16, slot: (Slot, i64))
        requires room { HasRoom self.old }
        requires near { register < 128 }
        ensures set { self.new ≡ set_at self.old register slot }
        ensures room { HasRoom self.new }
    {
        let place = usize::from(register);
        self.kinds[place] = slot.0;
        self.numbers[place] = slot.1;
    }
}

/// The register that a number is.
#[inline(always)]
pub(crate) fn register_in(number: i64) -> u16
    ensures { result ≡ cast_unsigned w64 number % 65536 }
{
    (number.cast_unsigned() % 65536) as u16
}

/// The rule that a slot holds of a register.
#[inline(always)]
pub(crate) fn rule_of<'a>(
    slot: (Slot, i64),
    expressions: &BTreeMap<u16, RegRule<'a>>,
    register: u16,
) -> RegRule<'a>
    ensures { result ≡ slot_rule slot (rule_in expressions.now.entries register) }
{
    match slot.0 {
        Slot::Undefined => RegRule::Undefined,
        Slot::SameValue => RegRule::SameValue,
        Slot::Offset => RegRule::Offset(slot.1),
        Slot::ValOffset => RegRule::ValOffset(slot.1),
        Slot::Register => RegRule::Register(register_in(slot.1)),
        Slot::Beside => rule_in_tree(expressions, register),
    }
}

/// The slot of a rule that needs no more than a slot: one with no expression.
#[inline(always)]
pub(crate) fn plain_slot(rule: &RegRule<'_>) -> Option<(Slot, i64)>
    ensures slot { IfSome result (IsSlotOf rule.now) }
    ensures kind { MatchOption result (HasSlot rule.now → ⊥) (λ slot. slot.0 ≡ Beside → ⊥) }
{
    match rule {
        RegRule::Undefined => Some((Slot::Undefined, 0)),
        RegRule::SameValue => Some((Slot::SameValue, 0)),
        RegRule::Offset(offset) => Some((Slot::Offset, *offset)),
        RegRule::ValOffset(offset) => Some((Slot::ValOffset, *offset)),
        RegRule::Register(register) => Some((Slot::Register, i64::from(*register))),
        _ => None,
    }
}

/// The offset that a slot holds of a register that is saved.
#[inline(always)]
pub(crate) fn offset_in(slot: (Slot, i64)) -> Option<i64>
    ensures offset { IfSome result (λ n. (block : TheRule) → slot_rule slot block ≡ Offset n) }
    ensures none { IfNone result ((block : TheRule) → (HasSlot block → ⊥) → IsOffset (slot_rule slot block) → ⊥) }
{
    match slot.0 {
        Slot::Offset => Some(slot.1),
        _ => None,
    }
}
