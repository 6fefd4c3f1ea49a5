//! The addresses at which the rules of an FDE change (6.4.3), one at a time, and a row narrowed to the registers that all changes specify.

ghost use Rattle.std.specs.Prelude.{◌⊎◌, ◌≡◌, ◌<◌, ◌↔◌, ℕ, List, [], length, slice_index_or, IsTrue, Ok, Some, None, true, false, IsErr, IfOk, IfSome};
ghost use Rattle.std.specs.Prelude.{OnErr, OnOk, MatchOption};
ghost use Rattle.dw_num.specs.declared.error.ReadError.TheVariants.{OutOfMemory};
ghost use Rattle.dw_row.specs.{Agreement.kept, Difference.{FirstDifference, place_behind}, RegisterSets.{SameBeside, has}};
ghost use Rattle.dw_row.specs.Rows.{AreSpecified, Rules, is_specified, rule};
ghost use Rattle.dw_cfa.specs.RowWalk.{StandsOn};
ghost use Rattle.dw_section.specs.{Changes.{GivesAddress, GivesChange, GoesOn, before_then, behind_all, kept_by}, Meaning.{AreFdes, ChangesOf}};
ghost use Rattle.dw_section.specs.{Opening.{AreChanged, CieLeaves}, declared.lookup.Fde.{Fde as TheFde}};
ghost use Rattle.dw_section.specs.Inner.{Changes.{Before, FindsChange, FindsFirst, KeepsIf, ShownBehind, fault_of}, NarrowRow.NarrowedBy, Shown.{shown_if, shown_of}, StandingChanges.JudgesChange};

use crate::lookup::FdeRef;
use crate::table::Table;
use crate::walks::Walks;
use dw_cfa::RowWalk;
use dw_num::{ReadError, Target, are_bytes};
use dw_row::{RegisterSet, Row};
use std::alloc::AllocError;
use std::marker::Model;

// The row that a walk kept, where one was.
#[inline(always)]
fn kept_row<'w, 'a>(steps: &'w RowWalk<'a>, kept: bool) -> Option<&'w Row<'a>>
    ensures { MatchOption result (shown_if kept steps.now.kept ≡ None) (λ row. shown_if kept steps.now.kept ≡ Some row.now) }
{
    if kept {
        return Some(steps.kept());
    }
    None
}

// Whether the row that is lent is the one that was kept, where one was. Then what was set up to it is not compared again, so rows
// that change nothing cost what is set between them.
#[inline(always)]
fn is_shown(steps: &mut RowWalk<'_>, kept: bool) -> bool
    ensures shown { IsTrue result ↔ (shown_if kept steps.old.kept ≡ Some steps.old.steps.current) }
    ensures same { steps.new ≡ steps.old }
{
    kept && steps.is_kept()
}

// Whether an address below the end shows the row that is lent, which starts here.
#[inline(always)]
fn is_visible(steps: &RowWalk<'_>, start: u128, end: u128) -> bool
    ensures visible { steps.now.steps.outcome.fault ≡ None → (IsTrue result ↔ Before end start steps.now.steps.outcome.rows) }
    ensures below { IsTrue result → start < end }
{
    match steps.next_start() {
        Some(next) => start < next && start < end,
        None => start < end,
    }
}

// Goes on to the next row that an address shows and that is not the one that was kept, where one was.
#[inline(always)]
fn find_change(steps: &mut RowWalk<'_>, kept: bool, end: u128) -> Result<Option<u128>, ReadError>
    ensures finds { fault_of steps.old.steps ≡ None
        → FindsChange end steps.old.steps (shown_if kept steps.old.kept) result steps.new.steps }
    ensures judges { JudgesChange end steps.old.steps result steps.new.steps }
    ensures kept { steps.new.kept ≡ steps.old.kept }
    ensures led { steps.new.led ≡ steps.old.led }
    ensures stands { StandsOn steps.new.led steps.new.steps.outcome steps.new.initial }
{
    'rows: loop {
        let start = match steps.advance() {
            Ok(Some(start)) => start,
            Ok(None) => return Ok(None),
            Err(error) => return Err(error),
        };
        if !is_visible(steps, start, end) {
            continue;
        }
        if !is_shown(steps, kept) {
            return Ok(Some(start));
        }
    }
}

/// Keeps the row that the walk lends, where it is the one that was shown last, and goes on to the next change. An error is the fault of
/// the programs, or want of memory.
#[inline(always)]
pub(crate) fn next_change(
    steps: &mut RowWalk<'_>,
    kept: &mut bool,
    lent: bool,
    end: u128,
) -> Result<Option<u128>, ReadError>
    ensures finds { fault_of steps.old.steps ≡ None →
        FindsChange end steps.old.steps (shown_of lent steps.old.steps.current (shown_if kept.old steps.old.kept)) result steps.new.steps }
    ensures judges { JudgesChange end steps.old.steps result steps.new.steps }
    ensures kept { IfOk result (λ _. shown_if kept.new steps.new.kept ≡ shown_of lent steps.old.steps.current (shown_if kept.old steps.old.kept)) }
    ensures led { steps.new.led ≡ steps.old.led }
{
    if lent {
        steps.keep()?;
        *kept = true;
    }
    find_change(steps, *kept, end)
}

// Want of memory, the only error of programs that have no fault.
fn memory_error(error: ReadError) -> AllocError
    requires { error ≡ OutOfMemory }
{
    match error {
        ReadError::OutOfMemory => AllocError,
        ReadError::Refused(_) => unreachable!(),
    }
}

// The same of programs that have no fault.
#[inline(always)]
fn next_unrefused(
    steps: &mut RowWalk<'_>,
    kept: &mut bool,
    lent: bool,
    end: u128,
) -> Result<Option<u128>, AllocError>
    requires { fault_of steps.old.steps ≡ None }
    ensures finds { FindsChange end steps.old.steps (shown_of lent steps.old.steps.current (shown_if kept.old steps.old.kept)) result steps.new.steps }
    ensures kept { IfOk result (λ _. shown_if kept.new steps.new.kept ≡ shown_of lent steps.old.steps.current (shown_if kept.old steps.old.kept)) }
    ensures led { steps.new.led ≡ steps.old.led }
{
    match next_change(steps, kept, lent, end) {
        Ok(change) => Ok(change),
        Err(error) => Err(memory_error(error)),
    }
}

// Whether a register that the row that is lent specifies is specified in the row that was kept too.
fn is_kept_at(steps: &RowWalk<'_>, register: u16) -> bool
    ensures { result ≡ true → is_specified (rule steps.now.steps.current register) ≡ true → is_specified (rule steps.now.kept register) ≡ true }
{
    steps.kept().rule(register).is_specified() || !steps.row().rule(register).is_specified()
}

// Makes a set the registers whose rules are not those of the row that was kept, and says whether that specifies all that the row that is lent specifies.
#[tactic(auto, using(crate::proofs::BehindCie::all_kept))]
fn list_differences(steps: &RowWalk<'_>, changed: &mut RegisterSet<'_>) -> Result<bool, AllocError>
    ensures beside { OnOk result (SameBeside changed.new steps.now.kept steps.now.steps.current) }
    ensures only { OnOk result ((r : ℕ) → has changed.new r ≡ true → rule steps.now.kept r ≡ rule steps.now.steps.current r → ⊥) }
    ensures keeps { IfOk result (λ keeps. keeps ≡ true → kept steps.now.steps.current steps.now.kept ≡ steps.now.steps.current) }
{
    changed.clear();
    let mut keeps = true;
    let mut last = None;
    'registers: while let Some(register) = steps.next_difference(last) {
        changed.add(register)?;
        keeps = keeps && is_kept_at(steps, register);
        last = Some(register);
    }
    Ok(keeps)
}

/// How the row at an FDE's begin stands to the one that the program of its CIE leaves (6.4.3).
#[derive(Clone, Copy)]
pub struct Behind {
    /// The place of the CIE, `CIE_pointer` of the FDE.
    pub cie_at: u64,
    /// Whether the CIE's row is known to specify every register that the row at the begin specifies. Then all rows of the FDE do.
    pub keeps: bool,
}

// Keeps the row of the CIE at a place, where no row was gone on to yet, and goes on to the first change: then how that stands to the row of the CIE.
fn show_behind<'a>(
    steps: &mut RowWalk<'a>,
    changed: &mut RegisterSet<'a>,
    end: u128,
    cie_at: u64,
) -> Result<(Option<u128>, Option<Behind>), AllocError>
    requires { fault_of steps.old.steps ≡ None }
    ensures finds { FindsFirst end steps.old.steps result steps.new.steps }
    ensures led { steps.new.led ≡ steps.old.led }
    ensures cie { IfOk result (λ found. IfSome found.1 (λ behind. behind.cie_at ≡ cie_at)) }
    ensures beside { IfOk result (λ found. IfSome found.1 (λ _. ShownBehind steps.new changed.new)) }
    ensures keeps { IfOk result (λ found. IfSome found.1 (λ behind. KeepsIf behind.keeps steps.new)) }
{
    let kept = match steps.keep_initial() {
        Ok(kept) => kept,
        Err(error) => return Err(memory_error(error)),
    };
    let change = match find_change(steps, false, end) {
        Ok(change) => change,
        Err(error) => return Err(memory_error(error)),
    };
    if !kept || change.is_none() {
        return Ok((change, None));
    }
    let keeps = list_differences(steps, changed)?;
    steps.cie_keeps();
    Ok((change, Some(Behind { cie_at, keeps })))
}

/// The changes of an FDE (6.4.1, 6.4.3): its begin (`initial_location`), and each address below its end (that plus
/// `address_range`) at which the rule of some column, the CFA's or a register's, is not that one address before, ascending,
/// each with the rules there. A contract sees the section, and the changes still to come.
#[derive(Drop)]
pub struct Changes<'a> {
    bytes: &'a [u8],
    target: Target,
    walks: Walks<'a>,
    // The row that was shown last is the one that the walk lends, and the one before it is kept.
    lent: bool,
    // The walk kept a row that was shown.
    kept: bool,
    end: u128,
    failed: bool,
}

impl<'a> Model for Changes<'a> {
    ghost use Rattle.dw_section.specs.{Changes.Changing, Inner.Changes.{ChangesSo, showing}};

    ghost Value = { Changing };

    ghost view = { λ c. showing (record { target = c.target; bytes = c.bytes.now }) c.walks.walk c.lent c.kept c.end c.failed };

    ghost invariant = { λ c. ChangesSo (record { target = c.target; bytes = c.bytes.now }) c.walks };
}

// Drops from a row, which was narrowed by the row before a change, the registers that the change leaves Unspecified. It looks at
// the registers that the change alters alone.
fn drop_altered<'a>(shared: &mut Row<'a>, changes: &Changes<'a>)
    requires narrowed { NarrowedBy shared.old changes.now.before }
    requires shown { (row : Rules) × (changes.now.shown ≡ Some row) }
    ensures { (row : Rules) → changes.now.shown ≡ Some row → shared.new ≡ kept shared.old row }
{
    let Some(row) = changes.row() else {
        unreachable!();
    };
    shared.ascends();
    let mut last = None;
    'registers: while let Some(register) = changes.next_difference(last) {
        if !row.rule(register).is_specified() {
            shared.drop_register(register);
        }
        last = Some(register);
    }
}

impl<'a> Table<'a> {
    /// Changes of which none is to come, so that `go_on` has room to go on in. Takes no memory.
    pub fn no_changes(&self) -> Changes<'a>
        ensures { result ≡ record { section = self.now; to_come = []; shown = None; before = None; failed = false } }
    {
        self.accepted();
        Changes {
            bytes: self.bytes,
            target: self.target,
            walks: Walks::new(*self.index.allocator(), self.target),
            lent: false,
            kept: false,
            end: 0,
            failed: false,
        }
    }

    /// Goes to the changes of an FDE of the list of `fdes`, in the room of changes of this section, also where memory ran out. Programs are run by
    /// `Changes::next`, that of a CIE only where its walk was not kept. Memory is taken only to keep the walk of a CIE with a long program.
    pub fn go_on(&self, changes: &mut Changes<'a>, fde: FdeRef)
        requires place { (fs : List TheFde) → AreFdes self.now.target self.now.bytes fs → fde.place < length fs }
        requires section { changes.old.section ≡ self.now }
        ensures begun { (changes.new.failed ≡ false) × (changes.new.shown ≡ None) }
        ensures before { changes.new.before ≡ None }
        ensures section { changes.new.section ≡ self.now }
        ensures changes { (fs : List TheFde) → AreFdes self.now.target self.now.bytes fs → (d : TheFde)
            → ChangesOf self.now.target self.now.bytes (slice_index_or fs fde.place d) changes.new.to_come }
    {
        self.accepted();
        let found = self.found(fde);
        changes.walks.lead(&found.cie, changes.target);
        are_bytes(found.cie.program.bytes);
        are_bytes(found.own.program.bytes);
        changes.walks.walk.go_to(found.own.program, found.own.begin);
        changes.lent = false;
        changes.kept = false;
        changes.end = u128::from(found.own.begin) + u128::from(found.own.range);
        changes.failed = false;
    }
}

impl<'a> Changes<'a> {
    /// Goes on to the next change, whose row (6.4.1) `row` lends then, and answers its address, or none behind the last one. Want
    /// of memory is answered from then on. An address is below the FDE's end, so below 2^N, where an address has N bits.
    #[inline(always)]
    pub fn advance(&mut self) -> Result<Option<u128>, AllocError>
        ensures gives { GivesAddress self.old result self.new }
        ensures again { self.old.failed ≡ true → IsErr result }
        ensures section { self.new.section ≡ self.old.section }
        ensures before { IfOk result (λ address. self.new.before ≡ before_then address self.old.shown) }
    {
        if self.failed {
            return Err(AllocError);
        }
        if self.lent && self.walks.walk.next_start().is_none() {
            // The row that is lent stays, and none is before it.
            self.kept = false;
            return Ok(None);
        }
        let change = next_unrefused(&mut self.walks.walk, &mut self.kept, self.lent, self.end);
        self.lent = matches!(change, Ok(Some(_)));
        self.failed = change.is_err();
        change
    }

    /// Goes on to the next change as `advance` does. Where that is the first one that is asked for behind `Table::changes` or `go_on`, and the program of the
    /// CIE (`initial_instructions`, 6.4.1) is long, a set becomes the registers to which it gives other rules than the row that this program leaves, and the
    /// CIE is answered. It costs what the FDE's program set, and nothing for the other registers. `None` says that this is not known.
    pub fn advance_behind(
        &mut self,
        changed: &mut RegisterSet<'a>,
    ) -> Result<Option<Behind>, AllocError>
        ensures goes { OnOk result (GoesOn self.old self.new) }
        ensures failed { OnErr result (self.new.failed ≡ true) }
        ensures again { self.old.failed ≡ true → IsErr result }
        ensures section { self.new.section ≡ self.old.section }
        // The set has the registers in which the row that is shown is not that of the CIE.
        ensures changed { IfOk result (λ found. IfSome found (λ behind. (row : Rules)
            × CieLeaves self.old.section.target self.old.section.bytes behind.cie_at row × IfSome self.new.shown (AreChanged changed.new row))) }
        // The changes still to come specify what the first one does.
        ensures keeps { IfOk result (λ found. IfSome found (λ behind. IsTrue behind.keeps
            → IfSome self.new.shown (λ first. kept_by first self.new.to_come ≡ first))) }
    {
        if self.walks.long
            && !self.lent
            && !self.kept
            && !self.failed
            && let Some(cie_at) = self.walks.cie_at
        {
            let shown = show_behind(&mut self.walks.walk, changed, self.end, cie_at);
            let Ok((change, behind)) = shown else {
                self.failed = true;
                return Err(AllocError);
            };
            self.lent = change.is_some();
            return Ok(behind);
        }
        self.advance()?;
        Ok(None)
    }

    /// The row (6.4.1) of the change that `advance` or `next` went on to, also behind the last one, and none before the first
    /// one. Behind want of memory it is some row, or none.
    #[inline(always)]
    pub fn row(&self) -> Option<&Row<'a>>
        ensures { MatchOption result (self.now.shown ≡ None) (λ row. self.now.shown ≡ Some row.now) }
    {
        if self.lent {
            return Some(self.walks.walk.row());
        }
        kept_row(&self.walks.walk, self.kept)
    }

    /// The row (6.4.1) of the change before the one that `row` lends. None at the first change, and behind the last one.
    #[inline(always)]
    pub fn before(&self) -> Option<&Row<'a>>
        ensures { MatchOption result (self.now.before ≡ None) (λ row. self.now.before ≡ Some row.now) }
    {
        kept_row(&self.walks.walk, self.lent && self.kept)
    }

    /// The next change with its row (6.4.1), or none behind the last one. Want of memory is answered from then on.
    pub fn next(&mut self) -> Result<Option<(u128, Row<'a>)>, AllocError>
        ensures gives { GivesChange self.old result self.new }
        ensures again { self.old.failed ≡ true → IsErr result }
        ensures section { self.new.section ≡ self.old.section }
        ensures before { IfOk result (λ change. self.new.before ≡ before_then change self.old.shown) }
    {
        let Some(address) = self.advance()? else {
            return Ok(None);
        };
        let Some(row) = self.row() else {
            unreachable!();
        };
        let copied = row.copied();
        self.failed = copied.is_err();
        copied.map(|row| Some((address, row)))
    }

    /// The least register to which the change that is shown gives another rule (6.4.1) than the change before it, of those behind
    /// a given one where there is such; or none. Takes no memory.
    #[inline(always)]
    pub fn next_difference(&self, behind: Option<u16>) -> Option<u16>
        ensures first { (before after : Rules) → self.now.before ≡ Some before → self.now.shown ≡ Some after
            → FirstDifference (place_behind behind) before.registers after.registers result }
        ensures none { self.now.before ≡ None → result ≡ None }
        ensures ascending { (before : Rules) → self.now.before ≡ Some before → AreSpecified 0 before.registers }
        ensures other_ascending { (after : Rules) → self.now.shown ≡ Some after → AreSpecified 0 after.registers }
    {
        self.walks.walk.row().ascends();
        self.walks.walk.kept().ascends();
        if self.lent && self.kept {
            return self.walks.walk.next_difference(behind);
        }
        None
    }

    /// Goes on behind the last change, and drops from a row the registers that one of the changes still to come leaves Unspecified. Where the CIE's row shows
    /// that none does, it may stay where it is. Behind want of memory, which `advance` and `next` answer from then on, some of them are dropped.
    // No change drops a register that the CIE's program specifies, so most rows need no walk.
    #[tactic(auto, using(crate::proofs::ChangesAmong::none_dropped, crate::proofs::Dropped::next_of, crate::proofs::Dropped::kept_again))]
    pub fn narrow(&mut self, row: &mut Row<'a>) -> Result<(), AllocError>
        ensures row { OnOk result (row.new ≡ kept_by row.old self.old.to_come) }
        ensures behind { OnOk result ((self.new ≡ self.old) ⊎ (self.new ≡ behind_all self.old)) }
        ensures failed { OnErr result (self.new.failed ≡ true) }
        ensures stays { self.old.failed ≡ true → self.new.failed ≡ true }
        ensures section { self.new.section ≡ self.old.section }
    {
        if self.walks.walk.keeps(row) {
            return Ok(());
        }
        let Some(_) = self.advance()? else {
            return Ok(());
        };
        let Some(first) = self.row() else {
            unreachable!();
        };
        row.keep(first);
        self.narrow_further(row)
    }

    /// The same of a row that specifies no register that the change which is shown leaves Unspecified, always behind the last
    /// change. It looks at the registers that changes alter, and at no others of the row.
    #[tactic(auto, using(crate::proofs::Dropped::next_of, crate::proofs::Dropped::before_is, crate::proofs::Dropped::kept_again))]
    pub fn narrow_further(&mut self, row: &mut Row<'a>) -> Result<(), AllocError>
        requires { (shown : Rules) × (self.old.shown ≡ Some shown) × (kept row.old shown ≡ row.old) }
        ensures row { OnOk result (row.new ≡ kept_by row.old self.old.to_come) }
        ensures behind { OnOk result (self.new ≡ behind_all self.old) }
        ensures failed { OnErr result (self.new.failed ≡ true) }
        ensures stays { self.old.failed ≡ true → self.new.failed ≡ true }
        ensures section { self.new.section ≡ self.old.section }
    {
        'changes: while let Some(_) = self.advance()? {
            drop_altered(row, self);
        }
        Ok(())
    }
}
