//! Rows that differ in the registers of a set alone (6.4.1): what is done register by register goes over these.

ghost use Rattle.std.specs.Prelude.{◌≡◌, ℕ, OnOk};
ghost use Rattle.dw_row.specs.{Agreement.IsAgreed, Difference.{FirstDifference, place_behind}, RegisterSets.{AgreesBeside, SameBeside}};
ghost use Rattle.dw_row.specs.Inner.{Agreement.is_agreed, Among.{CopiedUpTo, SameUnlisted, in_mask, in_tree}, Difference.SameUnset};
ghost use Rattle.dw_row.specs.{Inner.Entries.{LeavesAmong, LeavesAt}, Rows.{AreSpecified, rule_in}};

use crate::behind::{place_behind, start_behind};
use crate::in_common::agree_cfa;
use crate::near_slots::next_in;
use crate::register_set::RegisterSet;
use crate::row::Row;
use crate::rule::RegRule;
use std::alloc::AllocError;
use std::collections::BTreeMap;
use std::ops::Bound;

// Copies the rules of the registers in a mask, one after another.
#[inline(never)]
#[tactic(auto, using(crate::proofs::Marked::copied_on, crate::proofs::Marked::copied_next))]
fn copy_each<'a>(row: &Row<'a>, copy: &mut Row<'a>, mask: u128) -> Result<(), AllocError>
    requires { SameUnset mask copy.old.registers row.now.registers }
    ensures { OnOk result (CopiedUpTo 128 row.now.registers copy.old.registers copy.new.registers) }
{
    let mut place = 0;
    'slots: while let Some(register) = next_in(mask, place) {
        copy.ascends();
        copy.copy_rule(row, register as u16)?;
        place = register + 1;
    }
    Ok(())
}

// The same, mostly by slots alone.
#[inline(always)]
fn copy_near<'a>(row: &Row<'a>, copy: &mut Row<'a>, mask: u128) -> Result<(), AllocError>
    requires { SameUnset mask copy.old.registers row.now.registers }
    ensures { OnOk result (CopiedUpTo 128 row.now.registers copy.old.registers copy.new.registers) }
{
    if copy.entries.copy_among(&row.entries, mask) {
        return Ok(());
    }
    copy_each(row, copy, mask)
}

// Copies the rules of the registers in a tree.
#[inline(never)]
fn copy_listed<'a>(
    row: &Row<'a>,
    copy: &mut Row<'a>,
    marked: &BTreeMap<u16, RegRule<'_>>,
) -> Result<(), AllocError>
    requires { SameUnlisted 0 marked.now.entries copy.old.registers row.now.registers }
    ensures { OnOk result ((r : ℕ) → rule_in copy.new.registers r ≡ rule_in row.now.registers r) }
{
    let mut marks = marked.iter();
    'marks: while let Some((register, _)) = marks.next() {
        copy.ascends();
        copy.set(*register, row.rule(*register))?;
    }
    Ok(())
}

// The same of a tree that is mostly empty.
#[inline(always)]
fn copy_far<'a>(
    row: &Row<'a>,
    copy: &mut Row<'a>,
    marked: &BTreeMap<u16, RegRule<'_>>,
) -> Result<(), AllocError>
    requires { SameUnlisted 0 marked.now.entries copy.old.registers row.now.registers }
    ensures { OnOk result ((r : ℕ) → rule_in copy.new.registers r ≡ rule_in row.now.registers r) }
{
    if marked.is_empty() {
        return Ok(());
    }
    copy_listed(row, copy, marked)
}

// The first register behind another one, or from the first one on, that is in a tree and whose rule differs.
#[inline(never)]
fn next_listed_difference(
    kept: &Row<'_>,
    row: &Row<'_>,
    marked: &BTreeMap<u16, RegRule<'_>>,
    behind: Option<u16>,
) -> Option<u16>
    requires marked { AreSpecified 128 marked.now.entries }
    requires same { SameUnlisted (place_behind behind) marked.now.entries kept.now.registers row.now.registers }
    ensures { FirstDifference (place_behind behind) kept.now.registers row.now.registers result }
{
    let mut marks = marked.range((start_behind(behind), Bound::Unbounded));
    'marks: while let Some((register, _)) = marks.next() {
        if !kept.has_same_rule(row, *register) {
            return Some(*register);
        }
    }
    None
}

// The same of a tree that is mostly empty.
#[inline(always)]
#[tactic(auto, using(crate::proofs::Marked::none_listed))]
fn next_far_difference(
    kept: &Row<'_>,
    row: &Row<'_>,
    marked: &BTreeMap<u16, RegRule<'_>>,
    behind: Option<u16>,
) -> Option<u16>
    requires marked { AreSpecified 128 marked.now.entries }
    requires same { SameUnlisted (place_behind behind) marked.now.entries kept.now.registers row.now.registers }
    ensures { FirstDifference (place_behind behind) kept.now.registers row.now.registers result }
{
    if marked.is_empty() {
        return None;
    }
    next_listed_difference(kept, row, marked, behind)
}

// Drops a register from a row, if another row gives it another rule.
#[tactic(auto, using(crate::proofs::RegisterSets::dropped_at, crate::proofs::RegisterSets::stays_at))]
fn agree_at(row: &mut Row<'_>, other: &Row<'_>, register: u16) -> Result<(), AllocError>
    ensures cfa { row.new.cfa ≡ row.old.cfa }
    ensures rules { OnOk result (LeavesAt (is_agreed other.now.registers) register row.old.registers row.new.registers) }
{
    if row.has_same_rule(other, register) {
        return Ok(());
    }
    row.ascends();
    row.set(register, RegRule::Unspecified)
}

// The same of the registers in a mask.
fn agree_near(row: &mut Row<'_>, other: &Row<'_>, mask: u128) -> Result<(), AllocError>
    ensures cfa { row.new.cfa ≡ row.old.cfa }
    ensures rules { OnOk result (LeavesAmong (in_mask mask 128) (is_agreed other.now.registers) row.old.registers row.new.registers) }
{
    let mut place = 0;
    'slots: while let Some(register) = next_in(mask, place) {
        agree_at(row, other, register as u16)?;
        place = register + 1;
    }
    Ok(())
}

// The same of the registers in a tree.
fn agree_far(
    row: &mut Row<'_>,
    other: &Row<'_>,
    far: &BTreeMap<u16, RegRule<'_>>,
) -> Result<(), AllocError>
    requires { AreSpecified 128 far.now.entries }
    ensures cfa { row.new.cfa ≡ row.old.cfa }
    ensures rules { OnOk result (LeavesAmong (in_tree far.now.entries) (is_agreed other.now.registers) row.old.registers row.new.registers) }
{
    let mut registers = far.iter();
    'registers: while let Some((register, _)) = registers.next() {
        agree_at(row, other, *register)?;
    }
    Ok(())
}

impl<'a> Row<'a> {
    // Makes it a copy of another row, which gives all registers the same rules but those of a mask and of a tree.
    #[inline(always)]
    #[tactic(auto, using(crate::proofs::Lent::SameRows::same_rows))]
    fn copy_these(
        &mut self,
        other: &Row<'a>,
        near: u128,
        far: &BTreeMap<u16, RegRule<'_>>,
    ) -> Result<(), AllocError>
        requires { SameBeside (record { near = near; far = far.now.entries }) self.old other.now }
        ensures { OnOk result (self.new ≡ other.now) }
    {
        if near != 0 {
            copy_near(other, self, near)?;
        }
        copy_far(other, self, far)?;
        self.copy_cfa(other);
        self.ascends();
        other.ascends();
        Ok(())
    }

    /// Makes it a copy of another row, in the room that is there, or answers want of memory. It is some row then.
    #[inline(always)]
    #[tactic(auto, using(crate::proofs::Copied::beside_blank))]
    pub fn become_copy(&mut self, other: &Row<'a>) -> Result<(), AllocError>
        ensures { OnOk result (self.new ≡ other.now) }
    {
        self.clear();
        let entries = &other.entries;
        self.copy_these(other, entries.used, &entries.far)
    }

    /// The same, where it gives all registers outside a set the same rules: those in the set are copied alone.
    #[inline(always)]
    pub(crate) fn become_copy_among(
        &mut self,
        other: &Row<'a>,
        registers: &RegisterSet<'_>,
    ) -> Result<(), AllocError>
        requires { SameBeside registers.now self.old other.now }
        ensures { OnOk result (self.new ≡ other.now) }
    {
        self.copy_these(other, registers.near, &registers.far)
    }

    /// What `next_difference` answers, where both rows give all registers outside a set the same rules: those in the set are looked at alone. Takes no memory.
    #[inline(always)]
    pub fn next_difference_among(
        &self,
        other: &Row<'_>,
        registers: &RegisterSet<'_>,
        behind: Option<u16>,
    ) -> Option<u16>
        requires { SameBeside registers.now self.now other.now }
        ensures first { FirstDifference (place_behind behind) self.now.registers other.now.registers result }
        ensures ascending { AreSpecified 0 self.now.registers }
        ensures other_ascending { AreSpecified 0 other.now.registers }
    {
        self.ascends();
        other.ascends();
        let (near, far) = (registers.near, &registers.far);
        if near == 0 {
            return next_far_difference(self, other, far, behind);
        }
        let (entries, others) = (&self.entries, &other.entries);
        if let Some(register) = entries.next_near_difference(others, near, place_behind(behind)) {
            return Some(register);
        }
        next_far_difference(self, other, far, behind)
    }

    /// Keeps what another row has too, as `agree` does, where it gives no register outside a set a rule that the other row does
    /// not give it: those in the set are looked at alone. Behind want of memory it is some row.
    pub fn agree_among(
        &mut self,
        other: &Row<'_>,
        registers: &RegisterSet<'_>,
    ) -> Result<(), AllocError>
        requires { AgreesBeside registers.now self.old other.now }
        ensures { OnOk result (IsAgreed self.old other.now self.new) }
    {
        agree_near(self, other, registers.near)?;
        agree_far(self, other, &registers.far)?;
        self.ascends();
        agree_cfa(self, other);
        Ok(())
    }
}
