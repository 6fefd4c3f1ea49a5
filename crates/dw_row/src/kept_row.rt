//! A row that was kept, and the registers that were set since (6.4.1).

ghost use Rattle.std.specs.Prelude.{◌≡◌, ◌↔◌, List, ℕ, IsTrue, OnErr, OnOk, false};
ghost use Rattle.dw_row.specs.{Difference.{FirstDifference, place_behind}, Rows.{AreSpecified, blank, with_rule}};
ghost use Rattle.dw_row.specs.{declared.{rule.{RegRule.{RegRule as TheRule}}}, Inner.Kept.{IsMarked, KeptSo}};

use crate::entries::NEAR;
use crate::register_set::RegisterSet;
use crate::row::Row;
use crate::rule::RegRule;
use std::alloc::{AllocError, Global};
use std::mem;

/// A row that was kept beside the current one. Where that is watched, all registers that were set since are known, so that both
/// are compared, and each made a copy of the other, by these alone.
#[derive(Drop)]
pub(crate) struct KeptRow<'a> {
    pub(crate) row: Row<'a>,
    pub(crate) changed: RegisterSet<'a>,
    pub(crate) watched: bool,
}

impl<'a> KeptRow<'a> {
    /// Nothing is watched until `keep`.
    pub(crate) fn none(alloc: Global) -> KeptRow<'a>
        ensures row { result.row ≡ blank }
        ensures watched { result.watched ≡ false }
    {
        KeptRow {
            row: Row::blank(alloc),
            changed: RegisterSet::new(alloc),
            watched: false,
        }
    }

    /// Marks a register of the current row that is set next, or answers want of memory.
    #[inline(always)]
    #[tactic(auto, using(crate::proofs::Marked::marked_so))]
    pub(crate) fn mark(&mut self, register: u16) -> Result<(), AllocError>
        ensures row { self.new.row ≡ self.old.row }
        ensures watched { self.new.watched ≡ self.old.watched }
        ensures same { OnErr result (self.new ≡ self.old) }
        ensures still { (current : List (ℕ × TheRule)) → KeptSo self.old current → KeptSo self.new current }
        ensures marked { OnOk result (IsMarked register self.old self.new) }
    {
        if register < NEAR || self.watched {
            return self.changed.add(register);
        }
        Ok(())
    }

    /// Gives a register of the current row a rule, or answers want of memory.
    #[inline(always)]
    pub(crate) fn set(
        &mut self,
        current: &mut Row<'a>,
        register: u16,
        rule: RegRule<'a>,
    ) -> Result<(), AllocError>
        requires { KeptSo self.old current.old.registers }
        ensures ok { OnOk result (current.new ≡ with_rule register rule.entry current.old) }
        ensures err { OnErr result (current.new ≡ current.old) }
        ensures row { self.new.row ≡ self.old.row }
        ensures so { KeptSo self.new current.new.registers }
    {
        self.mark(register)?;
        current.ascends();
        current.set(register, rule)?;
        Ok(())
    }

    /// Watches the current row, which is the kept one. Takes no memory.
    #[inline(always)]
    pub(crate) fn begin(&mut self)
        ensures row { self.new.row ≡ self.old.row }
        ensures watched { IsTrue self.new.watched }
        ensures so { KeptSo self.new self.old.row.registers }
    {
        self.changed.clear();
        self.watched = true;
    }

    /// Keeps the current row, or answers want of memory. What is kept is some row then.
    #[inline(always)]
    pub(crate) fn keep(&mut self, current: &Row<'a>) -> Result<(), AllocError>
        requires { KeptSo self.old current.now.registers }
        ensures ok { OnOk result (self.new.row ≡ current.now) }
        ensures watched { OnOk result (IsTrue self.new.watched) }
        ensures err { OnErr result (self.new.watched ≡ false) }
        ensures so { KeptSo self.new current.now.registers }
    {
        if mem::replace(&mut self.watched, false) {
            self.row.become_copy_among(current, &self.changed)?;
        } else {
            self.row.become_copy(current)?;
        }
        self.begin();
        Ok(())
    }

    /// Makes the current row a copy of another one that was kept beside it too, or answers want of memory.
    #[tactic(auto, using(crate::proofs::Marked::unwatched))]
    #[inline(always)]
    pub(crate) fn go_back(
        &mut self,
        current: &mut Row<'a>,
        saved: &KeptRow<'a>,
    ) -> Result<(), AllocError>
        requires watched { IsTrue saved.now.watched }
        requires saved { KeptSo saved.now current.old.registers }
        requires so { KeptSo self.old current.old.registers }
        ensures ok { OnOk result (current.new ≡ saved.now.row) }
        ensures row { self.new.row ≡ self.old.row }
        ensures so { KeptSo self.new current.new.registers }
    {
        let watched = mem::replace(&mut self.watched, false);
        if watched {
            self.changed.add_all(&saved.changed)?;
        }
        current.become_copy_among(&saved.row, &saved.changed)?;
        self.watched = watched;
        Ok(())
    }

    /// The least register to which the current row gives another rule than the kept one, of those behind a given one where there is such; or none.
    #[inline(always)]
    pub(crate) fn next_difference(&self, current: &Row<'_>, behind: Option<u16>) -> Option<u16>
        requires { KeptSo self.now current.now.registers }
        ensures first { FirstDifference (place_behind behind) self.now.row.registers current.now.registers result }
        ensures ascending { AreSpecified 0 self.now.row.registers }
        ensures other_ascending { AreSpecified 0 current.now.registers }
    {
        if self.watched {
            return self
                .row
                .next_difference_among(current, &self.changed, behind);
        }
        self.row.next_difference(current, behind)
    }

    // Whether no register has another rule. Out of line: it is asked where the CFA's rules are the same alone.
    #[inline(never)]
    fn has_same_registers(&self, current: &Row<'_>) -> bool
        requires { KeptSo self.now current.now.registers }
        ensures { IsTrue result ↔ (self.now.row.registers ≡ current.now.registers) }
    {
        self.next_difference(current, None).is_none()
    }

    #[tactic(auto, using(crate::proofs::Marked::kept_exactly))]
    #[inline(always)]
    pub(crate) fn is_same(&self, current: &Row<'_>) -> bool
        requires { KeptSo self.now current.now.registers }
        ensures { IsTrue result ↔ (self.now.row ≡ current.now) }
    {
        if self.row.near_mask() != current.near_mask() {
            return false;
        }
        self.row.cfa_rule().is_same(current.cfa_rule()) && self.has_same_registers(current)
    }
}
