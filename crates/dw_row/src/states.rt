//! The current row and the remembered ones (6.4.2.4).

ghost use Rattle.std.specs.Prelude.{◌≡◌, ◌<◌, ◌≤◌, ◌↔◌, ℕ, ℤ, [], length, None, option_copied};
ghost use Rattle.std.specs.Prelude.{IfOk, IsTrue, OnErr, OnOk, false};
ghost use Rattle.dw_row.specs.{Difference.{FirstDifference, place_behind}, Rows.{AreSpecified, blank, rule_in, with_cfa, with_rule}};
ghost use Rattle.dw_row.specs.Inner.{Changes.registers_before, Kept.KeptSo};
ghost use Rattle.dw_row.specs.Inner.States.{SavedAgain, TakenBack, from_of};
ghost use Rattle.dw_row.specs.States.{first_if, BeganWith, Restored, remembering, with_row};

use crate::change_list::{Change, ChangeList};
use crate::entries::NEAR;
use crate::kept_row::KeptRow;
use crate::row::Row;
use crate::rule::{CfaRule, RegRule};
use smallvec::SmallVec;
use std::alloc::{AllocError, Global};
use std::marker::Model;

/// A remembered row: the CFA's rule, and how many changes of registers were listed before it.
#[derive(Default, Drop)]
pub(crate) struct Remembered<'a> {
    cfa: CfaRule<'a>,
    from: usize,
}

// How many changes were listed before the row that was remembered last.
fn from_of(last: Option<&Remembered<'_>>) -> usize
    ensures { result ≡ from_of (option_copied last.entry) }
{
    match last {
        Some(row) => row.from,
        None => 0,
    }
}

/// The current row and the remembered ones. Most programs remember one row at a time: that one is
/// saved, and lies beneath all others. Behind any other, and behind the first row where that is
/// tracked, changes are listed, and taken back.
#[derive(Drop)]
pub struct States<'a> {
    row: Row<'a>,
    kept: KeptRow<'a>,
    changes: ChangeList<'a>,
    remembered: SmallVec<Remembered<'a>, 3>,
    saved: KeptRow<'a>,
    tracked: bool,
    is_listed: bool,
}

impl<'a> Model for States<'a> {
    ghost use Rattle.dw_row.specs.{Inner.{Kept.KeptSo, States.{StatesSo, held, rows_before}}, States.Held};

    ghost Value = { Held };

    ghost view = { λ s. held s.tracked s.saved s.row s.kept.row
        s.changes.items s.remembered.items };

    ghost invariant = { λ s. KeptSo s.kept s.row.registers
        × StatesSo s.tracked s.is_listed s.saved
        (rows_before s.row.registers s.changes.items s.remembered.items).1
        s.changes.items s.remembered.items };
}

// Remembers no row. Mostly there is none, and a call of `clear` would cost more.
#[inline(always)]
fn forget<'a>(remembered: &mut SmallVec<Remembered<'a>, 3>)
    ensures { remembered.new.items ≡ [] }
{
    if !remembered.is_empty() {
        remembered.clear();
    }
}

// Whether changes are listed, or have to be.
fn is_listing<'a>(
    tracked: bool,
    changes: &ChangeList<'a>,
    remembered: &SmallVec<Remembered<'a>, 3>,
) -> bool
    ensures { result ≡ false → (tracked ≡ false)
        × (changes.now.items ≡ []) × (remembered.now.items ≡ []) }
{
    tracked || !remembered.is_empty() || changes.len() > 0
}

// Takes changes back, up to the first `from`.
#[inline(never)]
#[tactic(auto, using(crate::proofs::StatesLaws::taken_on, crate::proofs::StatesLaws::left_on))]
fn take_back<'a>(
    row: &mut Row<'a>,
    kept: &mut KeptRow<'a>,
    changes: &mut ChangeList<'a>,
    from: usize,
) -> Result<(), AllocError>
    requires from { from ≤ length changes.old.items }
    requires so { KeptSo kept.old row.old.registers }
    ensures ok { OnOk result (TakenBack from
        row.old.registers changes.old.items row.new.registers changes.new.items) }
    ensures kept { kept.new.row ≡ kept.old.row }
    ensures so { KeptSo kept.new row.new.registers }
{
    'changes: while let Some(Change { register, rule }) = changes.pop_behind(from) {
        kept.set(row, register, rule)?;
    }
    Ok(())
}

// Goes back to the row that is saved, and tells whether there is one.
#[inline(always)]
fn saved_again<'a>(
    row: &mut Row<'a>,
    kept: &mut KeptRow<'a>,
    saved: &mut KeptRow<'a>,
) -> Result<bool, AllocError>
    requires saved { KeptSo saved.old row.old.registers }
    requires so { KeptSo kept.old row.old.registers }
    ensures again { IfOk result (SavedAgain saved.old row.new) }
    ensures row { saved.new.row ≡ saved.old.row }
    ensures watched { saved.new.watched ≡ false }
    ensures kept { kept.new.row ≡ kept.old.row }
    ensures so { KeptSo kept.new row.new.registers }
{
    if !saved.watched {
        return Ok(false);
    }
    let back = kept.go_back(row, saved);
    saved.watched = false;
    back?;
    Ok(true)
}

// Brings the initial row back.
#[tactic(auto, using(crate::proofs::Marked::unwatched, crate::proofs::StatesLaws::all_taken))]
fn first_again<'a>(
    tracked: bool,
    row: &mut Row<'a>,
    kept: &mut KeptRow<'a>,
    changes: &mut ChangeList<'a>,
    initial: &Row<'a>,
) -> Result<(), AllocError>
    requires began { BeganWith initial.now
        (first_if tracked (registers_before row.old.registers changes.old.items)) }
    requires so { KeptSo kept.old row.old.registers }
    ensures row { OnOk result (row.new ≡ initial.now) }
    ensures kept { kept.new.row ≡ kept.old.row }
    ensures so { KeptSo kept.new row.new.registers }
{
    if tracked {
        take_back(row, kept, changes, 0)?;
        row.set_cfa(initial.cfa());
        return Ok(());
    }
    kept.watched = false;
    row.become_copy(initial)
}

impl<'a> States<'a> {
    /// The row alone. Where changes are tracked, `rewind` brings it back in as many steps as it was changed.
    pub fn new(alloc: Global, row: Row<'a>, tracked: bool) -> States<'a>
        ensures { result ≡ record { row = row.entry; stack = []; first = first_if tracked row.entry.registers; kept = blank } }
    {
        States {
            row,
            kept: KeptRow::none(alloc),
            changes: ChangeList::new(alloc),
            remembered: SmallVec::new(alloc),
            saved: KeptRow::none(alloc),
            tracked,
            is_listed: tracked,
        }
    }

    /// The current row.
    pub fn row(&self) -> &Row<'a>
        ensures { result.now ≡ self.now.row }
    {
        &self.row
    }

    /// The current row alone.
    pub fn into_row(self) -> Row<'a>
        ensures { result ≡ self.entry.row }
    {
        self.row
    }

    /// The row that was kept, and before `keep` some row.
    pub fn kept(&self) -> &Row<'a>
        ensures { result.now ≡ self.now.kept }
    {
        &self.kept.row
    }

    /// Keeps the current row, or answers want of memory. What is kept is some row then.
    #[inline(always)]
    pub fn keep(&mut self) -> Result<(), AllocError>
        ensures ok { OnOk result (self.new.kept ≡ self.old.row) }
        ensures same { self.new ≡ record { row = self.old.row; stack = self.old.stack; first = self.old.first; kept = self.new.kept } }
    {
        self.kept.keep(&self.row)
    }

    /// Looks no more at what was set before, where the current row is the kept one. Takes no memory.
    #[inline(always)]
    pub fn keep_same(&mut self)
        requires { self.old.kept ≡ self.old.row }
        ensures { self.new ≡ self.old }
    {
        self.kept.begin();
    }

    /// Whether the current row is the one that was kept.
    #[inline(always)]
    pub fn is_kept(&self) -> bool
        ensures { IsTrue result ↔ (self.now.kept ≡ self.now.row) }
    {
        self.kept.is_same(&self.row)
    }

    /// The least register to which the current row gives another rule than the kept one, of those behind a given one where there is such; or none.
    #[inline(always)]
    pub fn next_difference(&self, behind: Option<u16>) -> Option<u16>
        ensures first { FirstDifference (place_behind behind) self.now.kept.registers self.now.row.registers result }
        ensures ascending { AreSpecified 0 self.now.kept.registers }
        ensures other_ascending { AreSpecified 0 self.now.row.registers }
    {
        self.kept.next_difference(&self.row, behind)
    }

    /// Tracks changes no more: the first row is copied then, where `rewind` goes back to it.
    pub fn untrack(&mut self)
        ensures { self.new ≡ record { row = self.old.row; stack = self.old.stack; first = None; kept = self.old.kept } }
    {
        self.tracked = false;
    }

    /// Remembers no row, and says whether changes are tracked from the current one on.
    pub fn track(&mut self, tracked: bool)
        ensures { self.new ≡ record { row = self.old.row; stack = []; first = first_if tracked self.old.row.registers; kept = self.old.kept } }
    {
        self.changes.clear();
        forget(&mut self.remembered);
        self.saved.watched = false;
        self.tracked = tracked;
        self.is_listed = tracked;
    }

    /// How many rows are remembered.
    pub fn depth(&self) -> usize
        ensures { result ≡ length self.now.stack }
    {
        let listed = self.remembered.as_slice().len();
        if self.saved.watched {
            listed + 1
        } else {
            listed
        }
    }

    pub fn set_cfa(&mut self, cfa: CfaRule<'a>)
        ensures { self.new ≡ with_row (with_cfa cfa.entry self.old.row) self.old }
    {
        self.row.set_cfa(cfa);
    }

    /// Gives the CFA another offset from the same register (`DW_CFA_def_cfa_offset`, 6.4.2.2), where it is a register plus an offset, and tells whether it is.
    #[inline(always)]
    pub fn set_cfa_offset(&mut self, offset: i64) -> bool
        ensures set { IsTrue result → (r : ℕ) × (n : ℤ) × (self.old.row.cfa ≡ CfaRule.Register r n)
            × (self.new ≡ with_row (with_cfa (CfaRule.Register r offset) self.old.row) self.old) }
        ensures none { result ≡ false → ((r : ℕ) (n : ℤ) → self.old.row.cfa ≡ CfaRule.Register r n → ⊥) × (self.new ≡ self.old) }
    {
        self.row.set_cfa_offset(offset)
    }

    // Lists the rule that a register has, unless one is listed, and gives it another one.
    #[tactic(auto, using(crate::proofs::StatesLaws::same_held, crate::proofs::StatesLaws::same_so, crate::proofs::StatesLaws::same_states))]
    #[inline(never)]
    fn change(&mut self, register: u16, rule: RegRule<'a>) -> Result<(), AllocError>
        ensures kept { self.new.kept ≡ self.old.kept }
        ensures changed { OnOk result (self.new ≡ with_row (with_rule register rule.entry self.old.row) self.old) }
        ensures err { OnErr result (self.new ≡ self.old) }
    {
        self.is_listed = true;
        self.row.ascends();
        let from = from_of(self.remembered.last());
        self.changes.list(from, register, &self.row)?;
        self.kept.set(&mut self.row, register, rule)
    }

    /// Gives a register a rule, or answers want of memory, and is as before then.
    #[tactic(auto, using(crate::proofs::StatesLaws::ruled, crate::proofs::StatesLaws::set_held, crate::proofs::StatesLaws::same_states))]
    #[inline(always)]
    pub fn set(&mut self, register: u16, rule: RegRule<'a>) -> Result<(), AllocError>
        ensures kept { self.new.kept ≡ self.old.kept }
        ensures set { OnOk result (self.new ≡ with_row (with_rule register rule.entry self.old.row) self.old) }
        ensures err { OnErr result (self.new ≡ self.old) }
    {
        if self.is_listed {
            return self.change(register, rule);
        }
        self.saved.mark(register)?;
        self.row.ascends();
        self.kept.set(&mut self.row, register, rule)?;
        Ok(())
    }

    // Gives a register the rule of a row, whatever that is. Out of line: room for a rule is cleared at each register else.
    #[inline(never)]
    fn set_rule_of(&mut self, row: &Row<'a>, register: u16) -> Result<(), AllocError>
        ensures kept { self.new.kept ≡ self.old.kept }
        ensures set { OnOk result (self.new ≡ with_row (with_rule register (rule_in row.now.registers register) self.old.row) self.old) }
        ensures err { OnErr result (self.new ≡ self.old) }
    {
        self.set(register, row.rule(register))
    }

    /// Gives a register the rule that a row gives it, or answers want of memory, and is as before
    /// then.
    #[tactic(auto, using(crate::proofs::StatesLaws::ruled_row, crate::proofs::StatesLaws::set_held, crate::proofs::StatesLaws::same_states))]
    #[inline(always)]
    pub fn set_as(&mut self, row: &Row<'a>, register: u16) -> Result<(), AllocError>
        ensures kept { self.new.kept ≡ self.old.kept }
        ensures set { OnOk result (self.new ≡ with_row (with_rule register (rule_in row.now.registers register) self.old.row) self.old) }
        ensures err { OnErr result (self.new ≡ self.old) }
    {
        if register >= NEAR {
            return self.set_rule_of(row, register);
        }
        if self.is_listed {
            return self.set_rule_of(row, register);
        }
        self.kept.mark(register)?;
        self.saved.mark(register)?;
        self.row.ascends();
        self.row.copy_rule(row, register)?;
        Ok(())
    }

    // Lists the current row as one that is remembered.
    #[inline(never)]
    fn list_row(&mut self) -> Result<(), AllocError>
        requires { length self.old.stack < 64 }
        ensures kept { self.new.kept ≡ self.old.kept }
        ensures remembered { OnOk result (self.new ≡ remembering self.old) }
        ensures err { OnErr result (self.new ≡ self.old) }
    {
        self.is_listed = true;
        let cfa = self.row.cfa();
        let from = self.changes.len();
        Ok(self.remembered.push(Remembered { cfa, from })?)
    }

    /// Remembers the current row, or answers want of memory, and is as before then.
    #[inline(never)]
    pub fn remember(&mut self) -> Result<(), AllocError>
        requires { length self.old.stack < 64 }
        ensures kept { self.new.kept ≡ self.old.kept }
        ensures remembered { OnOk result (self.new ≡ remembering self.old) }
        ensures err { OnErr result (self.new ≡ self.old) }
    {
        // It is saved where nothing is there to go back to, and it is copied without memory.
        if !self.tracked && self.depth() == 0 && self.row.is_narrow() {
            self.changes.clear();
            self.is_listed = false;
            self.saved.keep(&self.row)?;
            return Ok(());
        }
        self.list_row()
    }

    // Goes back to the row that was remembered last, where changes are listed.
    #[inline(never)]
    fn restore_listed(&mut self) -> Result<bool, AllocError>
        ensures kept { self.new.kept ≡ self.old.kept }
        ensures restored { IfOk result (λ found. Restored found self.old self.new) }
        ensures none { OnErr result (self.new.stack ≡ []) }
    {
        let last = self.remembered.pop();
        let from = from_of(last.as_ref());
        match take_back(&mut self.row, &mut self.kept, &mut self.changes, from) {
            Ok(()) => {}
            Err(error) => {
                self.changes.clear();
                forget(&mut self.remembered);
                self.saved.watched = false;
                self.is_listed = self.tracked;
                return Err(error);
            }
        }
        match last {
            Some(last) => {
                self.row.set_cfa(last.cfa);
                self.is_listed = is_listing(self.tracked, &self.changes, &self.remembered);
                Ok(true)
            }
            None => saved_again(&mut self.row, &mut self.kept, &mut self.saved),
        }
    }

    /// Goes back to the row that was remembered last, and tells whether there was one. Behind want
    /// of memory none is remembered.
    #[inline(never)]
    pub fn restore(&mut self) -> Result<bool, AllocError>
        ensures kept { self.new.kept ≡ self.old.kept }
        ensures restored { IfOk result (λ found. Restored found self.old self.new) }
        ensures none { OnErr result (self.new.stack ≡ []) }
    {
        if self.is_listed {
            return self.restore_listed();
        }
        saved_again(&mut self.row, &mut self.kept, &mut self.saved)
    }

    /// Goes back to the initial row, which was the first, and remembers none.
    #[inline(always)]
    pub fn rewind(&mut self, initial: &Row<'a>) -> Result<(), AllocError>
        requires { BeganWith initial.now self.old.first }
        ensures kept { self.new.kept ≡ self.old.kept }
        ensures rewound { OnOk result ((self.new.row ≡ initial.now) × (self.new.stack ≡ []) × BeganWith initial.now self.new.first) }
    {
        let taken = first_again(
            self.tracked,
            &mut self.row,
            &mut self.kept,
            &mut self.changes,
            initial,
        );
        self.changes.clear();
        forget(&mut self.remembered);
        self.saved.watched = false;
        self.is_listed = self.tracked;
        taken
    }
}
