//! The registers of a row with their rules (6.4.1).

ghost use Rattle.std.specs.Prelude.{◌≡◌, ◌<◌, [], IfSome, IsOk, OnOk, OnErr, IsTrue, ◌↔◌};
ghost use Rattle.dw_row.specs.InPlace.{IsPlain};
ghost use Rattle.dw_row.specs.{Difference.{FirstDifference, place_behind}, Rows.{rule_in, is_specified, put}};
ghost use Rattle.dw_row.specs.declared.{rule.{RegRule.{RegRule as TheRule, TheVariants.Unspecified}}, slot.Slot.TheVariants.Beside};
ghost use Rattle.dw_row.specs.Inner.{Difference.{FirstBelow, SameUnset}, Entries.{entries_of, EntriesSo, FindsSlot, HasSlot, IsSlotOf}};

use crate::behind::start_behind;
use crate::near_slots::{bit_of, is_in, next_in, same_slots};
use crate::rule::RegRule;
use crate::slot::{Slot, Slots, plain_slot, rule_of};
use crate::tree::{first_difference, rule_in_tree, set_in_tree};
use std::alloc::AllocError;
use std::collections::BTreeMap;
use std::ops::Bound;

/// The registers below this have slots.
pub const NEAR: u16 = 128;
/// The registers that are not Unspecified, with their rules: those below 128 in slots under a mask, with their
/// expressions in a tree, and all others in another tree.
#[derive(Drop)]
pub(crate) struct Entries<'a> {
    pub(crate) slots: Slots,
    pub(crate) used: u128,
    pub(crate) expressions: BTreeMap<u16, RegRule<'a>>,
    pub(crate) far: BTreeMap<u16, RegRule<'a>>,
}

impl<'a> Entries<'a> {
    // The slot of a register that is specified.
    #[tactic(auto, using(crate::proofs::Slots::looked_up))]
    #[inline(always)]
    pub(crate) fn slot(&self, register: u16) -> Option<(Slot, i64)>
        requires so { EntriesSo self.now }
        requires near { register < 128 }
        ensures rule { FindsSlot self.now register result }
        ensures specified { IfSome result (λ slot. IsTrue (is_specified (rule_in (entries_of self.now) register))) }
    {
        if !is_in(self.used, register) {
            return None;
        }
        Some(self.slots.get(register))
    }

    #[inline(always)]
    #[tactic(auto, using(crate::proofs::Slots::behind_slots))]
    pub(crate) fn rule(&self, register: u16) -> RegRule<'a>
        requires { EntriesSo self.now }
        ensures { result ≡ rule_in (entries_of self.now) register }
    {
        if register >= NEAR {
            return rule_in_tree(&self.far, register);
        }
        match self.slot(register) {
            Some(slot) => rule_of(slot, &self.expressions, register),
            None => RegRule::Unspecified,
        }
    }

    // Whether others give a register that may have a slot the same rule.
    #[inline(always)]
    pub(crate) fn has_same_near(&self, others: &Entries<'_>, register: u16) -> bool
        requires so { EntriesSo self.now }
        requires others { EntriesSo others.now }
        requires near { register < 128 }
        ensures { IsTrue result ↔ (rule_in (entries_of self.now) register ≡ rule_in (entries_of others.now) register) }
    {
        match (self.slot(register), others.slot(register)) {
            (Some(slot), Some(other)) => same_slots(
                slot,
                other,
                &self.expressions,
                &others.expressions,
                register,
            ),
            (None, None) => true,
            _ => false,
        }
    }

    // The first register from a place on that has a slot, is in a mask, and whose rule differs.
    #[inline(always)]
    #[tactic(auto, using(crate::proofs::Difference::up_to_next, crate::proofs::Difference::one_more))]
    pub(crate) fn next_near_difference(
        &self,
        others: &Entries<'_>,
        mask: u128,
        from: u32,
    ) -> Option<u16>
        requires so { EntriesSo self.now }
        requires others { EntriesSo others.now }
        requires mask { SameUnset mask (entries_of self.now) (entries_of others.now) }
        ensures { FirstBelow 128 from (entries_of self.now) (entries_of others.now) result }
    {
        let mut place = from;
        'slots: while let Some(next) = next_in(mask, place) {
            let register = next as u16;
            if !self.has_same_near(others, register) {
                return Some(register);
            }
            place = next + 1;
        }
        None
    }

    // The first register behind another one, or from the first one on, that has no slot and whose rule differs. Out
    // of line: room for two walks is cleared at each call else.
    #[inline(never)]
    #[tactic(auto, using(crate::proofs::Difference::part_up))]
    pub(crate) fn far_difference(&self, others: &Entries<'_>, behind: Option<u16>) -> Option<u16>
        requires so { EntriesSo self.now }
        requires others { EntriesSo others.now }
        ensures { FirstDifference (place_behind behind) self.now.far.entries others.now.far.entries result }
    {
        let start = start_behind(behind);
        let mut rules = self.far.range((start, Bound::Unbounded));
        let mut others = others.far.range((start, Bound::Unbounded));
        first_difference(&mut rules, &mut others)
    }

    // Whether both trees are empty.
    #[inline(always)]
    pub(crate) fn is_narrow(&self) -> bool
        ensures { IsTrue result → (self.now.expressions.entries ≡ []) × (self.now.far.entries ≡ []) }
    {
        self.expressions.is_empty() && self.far.is_empty()
    }

    #[inline(never)]
    pub(crate) fn clear_trees(&mut self)
        ensures expressions { self.new.expressions.entries ≡ [] }
        ensures far { self.new.far.entries ≡ [] }
        ensures near { (self.new.slots ≡ self.old.slots) × (self.new.used ≡ self.old.used) }
    {
        self.expressions.clear();
        self.far.clear();
    }

    // Gives a register that has a slot a rule that is no expression.
    #[tactic(auto, using(crate::proofs::Slots::plain_put, crate::proofs::Slots::plain_holds))]
    #[inline(always)]
    fn put_plain(&mut self, register: u16, slot: (Slot, i64))
        requires so { EntriesSo self.old }
        requires near { register < 128 }
        requires kind { slot.0 ≡ Beside → ⊥ }
        ensures entries { (rule : TheRule) → IsSlotOf rule slot → entries_of self.new ≡ put register rule (entries_of self.old) }
        ensures so { EntriesSo self.new }
    {
        self.slots.set(register, slot);
        self.used |= bit_of(register);
    }

    // Gives a register that has a slot a rule that is kept beside it.
    #[tactic(auto, using(crate::proofs::Slots::kept_beside))]
    #[inline(never)]
    fn put_beside(&mut self, register: u16, rule: RegRule<'a>) -> Result<(), AllocError>
        requires so { EntriesSo self.old }
        requires near { register < 128 }
        requires specified { IsTrue (is_specified rule) }
        requires beside { HasSlot rule → ⊥ }
        ensures ok { OnOk result (entries_of self.new ≡ put register rule.entry (entries_of self.old)) }
        ensures so { EntriesSo self.new }
        ensures err { OnErr result (entries_of self.new ≡ entries_of self.old) }
    {
        set_in_tree(&mut self.expressions, register, rule)?;
        self.slots.set(register, (Slot::Beside, 0));
        self.used |= bit_of(register);
        Ok(())
    }

    // Gives a register that may have a slot a rule.
    #[tactic(auto, using(crate::proofs::Slots::not_plain))]
    #[inline(always)]
    pub(crate) fn set_near(&mut self, register: u16, rule: RegRule<'a>) -> Result<(), AllocError>
        requires so { EntriesSo self.old }
        requires near { register < 128 }
        ensures ok { OnOk result (entries_of self.new ≡ put register rule.entry (entries_of self.old)) }
        ensures so { EntriesSo self.new }
        ensures err { OnErr result (entries_of self.new ≡ entries_of self.old) }
        ensures plain { IsPlain rule.entry → IsOk result }
    {
        if let Some(slot) = plain_slot(&rule) {
            self.put_plain(register, slot);
            return Ok(());
        }
        if rule.is_specified() {
            return self.put_beside(register, rule);
        }
        self.drop_near(register);
        Ok(())
    }

    // Gives a register that may have a slot the rule that others give it, which is kept beside the slot.
    #[inline(never)]
    fn copy_beside(&mut self, others: &Entries<'a>, register: u16) -> Result<(), AllocError>
        requires so { EntriesSo self.old }
        requires others { EntriesSo others.now }
        requires near { register < 128 }
        requires specified { IsTrue (is_specified (rule_in (entries_of others.now) register)) }
        requires beside { HasSlot (rule_in (entries_of others.now) register) → ⊥ }
        ensures ok { OnOk result (entries_of self.new ≡ put register (rule_in (entries_of others.now) register) (entries_of self.old)) }
        ensures so { EntriesSo self.new }
        ensures err { OnErr result (entries_of self.new ≡ entries_of self.old) }
    {
        self.put_beside(register, others.rule(register))
    }

    // Gives a register that may have a slot the rule that others give it.
    #[inline(always)]
    pub(crate) fn copy_near(
        &mut self,
        others: &Entries<'a>,
        register: u16,
    ) -> Result<(), AllocError>
        requires so { EntriesSo self.old }
        requires others { EntriesSo others.now }
        requires near { register < 128 }
        ensures ok { OnOk result (entries_of self.new ≡ put register (rule_in (entries_of others.now) register) (entries_of self.old)) }
        ensures so { EntriesSo self.new }
        ensures err { OnErr result (entries_of self.new ≡ entries_of self.old) }
    {
        let Some(slot) = others.slot(register) else {
            self.drop_near(register);
            return Ok(());
        };
        if let Slot::Beside = slot.0 {
            return self.copy_beside(others, register);
        }
        self.put_plain(register, slot);
        Ok(())
    }

    // Takes a register out that may have a slot.
    #[tactic(auto, using(crate::proofs::Slots::dropped_holds, crate::proofs::Slots::dropped_put))]
    #[inline(always)]
    pub(crate) fn drop_near(&mut self, register: u16)
        requires so { EntriesSo self.old }
        requires near { register < 128 }
        ensures entries { entries_of self.new ≡ put register Unspecified (entries_of self.old) }
        ensures so { EntriesSo self.new }
    {
        self.used &= !bit_of(register);
    }
}
