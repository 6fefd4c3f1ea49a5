//! The initial row of each return address register, found in one pass over the FDEs; and a bound on the normal form's length, by the
//! lengths of the section's programs: no program is run for it.

ghost use Rattle.std.specs.Prelude.{◌≡◌, ℕ, ◌+◌, ◌*◌, [], ◌≤◌, ◌^◌, length, take, None, Some, is_some, IfOk, IfSome, IsTrue, OnOk};
ghost use Rattle.std.specs.{BTreeMap.{get, insert_entry}, Ordering.nat_cmp};
ghost use Rattle.dw_row.specs.{Rows.Rules, Inner.Agreement.agreed};
ghost use Rattle.dw_section.specs.{Changes.kept_by, Laws.{OneCieRow, SectionFaultsWithin}, Opening.OpensBehind, declared.opening.CieRow.{CieRow as TheRow}};
ghost use Rattle.dw_canon.specs.{Bound.share, Inner.Canon.canon};
ghost use Rattle.dw_normal.specs.Inner.{ChangeWalk.{BehindFirst, IsShown, ShownBehind, shown_row}, Groups.{HasJoined, joined_by, with_member, initial_rows}};
ghost use Rattle.dw_normal.specs.Inner.{Known.{Agree, KnownAgrees, NotesAgree}, Listed.{AreInitial, IsListed, OfFde, OfMember, OfMembers}};

use crate::known::Known;
use dw_row::{RegisterSet, Row};
use dw_section::{Behind, Changes, CieRow, FdeRef, Table, section_laws};
use std::alloc::{AllocError, Global};
use std::collections::BTreeMap;

// Longer programs are not judged by their lengths.
const LONG: usize = 1_000_000;

/// The laws of sections that are cited here: a proof in which all of them stand takes long.
pub(crate) fn cited_laws()
    ensures within { SectionFaultsWithin }
    ensures left { OneCieRow }
{
    section_laws();
}

/// Goes on to the changes of an FDE behind its begin, whose row is lent, and lists how that stands to the row of its CIE, where this is known.
pub(crate) fn go_behind_first<'a>(
    changes: &mut Changes<'a>,
    table: &Table<'a>,
    fde: FdeRef,
    changed: &mut RegisterSet<'a>,
) -> Result<Option<Behind>, AllocError>
    requires place { IsListed table.now fde.place }
    requires section { changes.old.section ≡ table.now }
    ensures behind { OfMember table.now fde.place (λ m. OnOk result (BehindFirst m changes.new)) }
    ensures shown { OnOk result (IsShown changes.new) }
    ensures stands { IfOk result (λ found. IfSome found (ShownBehind changes.new changed.new)) }
    ensures section { changes.new.section ≡ table.now }
{
    table.accepted();
    table.go_on(changes, fde);
    changes.advance_behind(changed)
}

// Narrows the row of a group to what one more FDE shares with it, whose row at its begin is shown. Where the program of its CIE is long,
// the registers of the CIE are not gone over.
fn share_with<'a>(
    shared: &mut Row<'a>,
    changes: &mut Changes<'a>,
    known: &mut Known<'a>,
    behind: Option<Behind>,
    register: u16,
) -> Result<(), AllocError>
    requires shown { IsShown changes.old }
    requires stands { IfSome behind (ShownBehind changes.old known.old.changed) }
    requires known { IfSome behind (λ b. KnownAgrees changes.old.section b.cie_at register known.old shared.old) }
    ensures row { (first : Rules) → changes.old.shown ≡ Some first → OnOk result (shared.new ≡ kept_by (agreed shared.old first) changes.old.to_come) }
    ensures known { OnOk result (NotesAgree behind register known.old (shown_row changes.old) shared.new known.new.cies) }
    ensures section { changes.new.section ≡ changes.old.section }
{
    let Some(first) = changes.row() else {
        unreachable!();
    };
    shared.ascends();
    first.ascends();
    let Some(behind) = behind else {
        shared.agree(first);
        return changes.narrow(shared);
    };
    known.agree(shared, first, behind.cie_at, register)?;
    if behind.keeps {
        return Ok(());
    }
    changes.narrow_further(shared)
}

// Begins the group of a return address register with an FDE, whose row at its begin is shown. Apart from `add_fde`, since a row is
// large and few FDEs begin a group.
#[inline(never)]
fn begin_group<'a>(
    rows: &mut BTreeMap<u16, Row<'a>>,
    changes: &mut Changes<'a>,
    register: u16,
) -> Result<(), AllocError>
    requires shown { IsShown changes.old }
    ensures rows { (first : Rules) → changes.old.shown ≡ Some first
        → OnOk result (rows.new.entries ≡ insert_entry nat_cmp rows.old.entries register (kept_by first changes.old.to_come)) }
    ensures section { changes.new.section ≡ changes.old.section }
{
    let Some(first) = changes.row() else {
        unreachable!();
    };
    let mut row = first.copied()?;
    changes.narrow(&mut row)?;
    drop(rows.insert(register, row)?);
    Ok(())
}

// Narrows the row of an FDE's group to what the FDE, behind whose begin the changes are, shares with it.
fn add_fde<'a>(
    rows: &mut BTreeMap<u16, Row<'a>>,
    changes: &mut Changes<'a>,
    known: &mut Known<'a>,
    table: &Table<'a>,
    fde: FdeRef,
    behind: Option<Behind>,
) -> Result<(), AllocError>
    requires place { IsListed table.now fde.place }
    requires behind { OfMember table.now fde.place (λ m. BehindFirst m changes.old) }
    requires shown { IsShown changes.old }
    requires section { changes.old.section ≡ table.now }
    requires stands { IfSome behind (ShownBehind changes.old known.old.changed) }
    requires known { Agree table.now rows.old.entries known.old.cies }
    ensures rows { OfMember table.now fde.place (λ m. OnOk result (rows.new.entries ≡ with_member rows.old.entries m)) }
    ensures known { OnOk result (Agree table.now rows.new.entries known.new.cies) }
    ensures section { changes.new.section ≡ changes.old.section }
{
    table.accepted();
    cited_laws();
    let register = table.fde(fde).return_register;
    let Some(shared) = rows.get_mut(&register) else {
        return begin_group(rows, changes, register);
    };
    shared.ascends();
    share_with(shared, changes, known, behind, register)
}

/// A row that FDEs begin with, which the row of a group was narrowed to, and the return address register of the group.
#[derive(Clone, Copy)]
pub(crate) struct Joined {
    pub(crate) row: CieRow,
    pub(crate) register: u16,
}

// Whether an FDE that begins with a row of a CIE is one of those.
#[inline(always)]
fn is_joined(joined: Option<Joined>, row: Option<CieRow>, register: u16) -> bool
    ensures { IsTrue result → (own : TheRow) × (row ≡ Some own) × (joined ≡ Some (record { row = own; register = register })) }
{
    match (joined, row) {
        (Some(joined), Some(own)) => joined.row == own && joined.register == register,
        _ => false,
    }
}

// The row that an FDE of a group begins with, where that is known.
#[inline(always)]
fn joined_by(row: Option<CieRow>, register: u16) -> Option<Joined>
    ensures { result ≡ joined_by row register }
{
    let row = row?;
    Some(Joined { row, register })
}

// Narrows the row of an FDE's group to what the FDE shares with it, and answers which FDEs share all that is left then. An FDE
// that is known to do so is not run.
#[inline(always)]
fn join_fde<'a>(
    rows: &mut BTreeMap<u16, Row<'a>>,
    changes: &mut Changes<'a>,
    known: &mut Known<'a>,
    table: &Table<'a>,
    fde: FdeRef,
    row: Option<CieRow>,
    joined: Option<Joined>,
) -> Result<Option<Joined>, AllocError>
    requires place { IsListed table.now fde.place }
    requires section { changes.old.section ≡ table.now }
    requires opens { OfFde table.now fde.place (λ f. IfSome row (OpensBehind table.now.target table.now.bytes f)) }
    requires rows { OfMembers table.now (λ ms. rows.old.entries ≡ initial_rows (take fde.place ms)) }
    requires joined { HasJoined table.now.target table.now.bytes rows.old.entries joined }
    requires known { Agree table.now rows.old.entries known.old.cies }
    ensures rows { OfMember table.now fde.place (λ m. OnOk result (rows.new.entries ≡ with_member rows.old.entries m)) }
    ensures joined { IfOk result (HasJoined table.now.target table.now.bytes rows.new.entries) }
    ensures known { OnOk result (Agree table.now rows.new.entries known.new.cies) }
    ensures section { changes.new.section ≡ table.now }
{
    table.accepted();
    let register = table.fde(fde).return_register;
    if is_joined(joined, row, register) {
        return Ok(joined);
    }
    let behind = go_behind_first(changes, table, fde, &mut known.changed)?;
    add_fde(rows, changes, known, table, fde, behind)?;
    Ok(joined_by(row, register))
}

// The shares of FDEs and of one more, by the lengths of its programs, or none once they are more than a cap lets. A share is at most 24
// times the bytes that an FDE and a CIE take.
fn add_share(total: Option<u64>, own: usize, initial: usize, cap: u64) -> Option<u64>
    requires cap { cap ≤ 2147483647 }
    requires low { IfSome total (λ n. n ≤ 24 * cap) }
    ensures low { IfSome result (λ n. n ≤ 24 * cap) }
    ensures is { (before : ℕ) → total ≡ Some before → IfSome result (λ n. n ≡ before + share own initial) }
    ensures some { IsTrue (is_some result) → IsTrue (is_some total) }
{
    let before = total?;
    if own > LONG || initial > LONG {
        return None;
    }
    let spread = 6 * (own as u64 + initial as u64) + 35;
    let sum = before + (spread * spread + 1320);
    if sum > 24 * cap {
        return None;
    }
    Some(sum)
}

// The same over changes of the table, into rows that are lent.
fn gather<'a>(
    rows: &mut BTreeMap<u16, Row<'a>>,
    changes: &mut Changes<'a>,
    known: &mut Known<'a>,
    table: &Table<'a>,
    cap: u64,
) -> Result<bool, AllocError>
    requires cap { cap ≤ 2147483647 }
    requires unknown { (place : ℕ) → get nat_cmp known.old.cies place ≡ None }
    requires none { rows.old.entries ≡ [] }
    requires section { changes.old.section ≡ table.now }
    ensures rows { OfMembers table.now (λ ms. OnOk result (rows.new.entries ≡ initial_rows ms)) }
    ensures short { OfMembers table.now (λ ms. IfOk result (λ short. IsTrue short → length (canon table.now.target ms) ≤ cap)) }
{
    table.accepted();
    let mut total = Some(0);
    let mut joined = None;
    'fdes: for place in 0..table.fde_count() {
        let fde = FdeRef { place };
        let opening = table.opening(fde);
        total = add_share(total, opening.own, opening.initial, cap);
        joined = join_fde(rows, changes, known, table, fde, opening.row, joined)?;
    }
    Ok(total.is_some())
}

/// A checked table with the initial row of each return address register, and whether the lengths of the programs alone show that
/// its normal form is within a cap.
#[derive(Drop)]
pub(crate) struct Ready<'a> {
    pub(crate) table: Table<'a>,
    pub(crate) rows: BTreeMap<u16, Row<'a>>,
    pub(crate) short: bool,
}

/// Finds the initial rows of a table in one pass over its FDEs.
pub(crate) fn make_ready<'a>(
    alloc: Global,
    table: Table<'a>,
    cap: u64,
) -> Result<Ready<'a>, AllocError>
    requires cap { cap ≤ 2147483647 }
    ensures table { IfOk result (λ ready. ready.table ≡ table.entry) }
    ensures rows { IfOk result (λ ready. AreInitial table.entry ready.rows.entries) }
    ensures short { IfOk result (λ ready. IsTrue ready.short → OfMembers table.entry (λ ms. length (canon table.entry.target ms) ≤ cap)) }
{
    let mut rows = BTreeMap::new(alloc);
    let mut changes = table.no_changes();
    let mut known = Known::none(alloc);
    let short = gather(&mut rows, &mut changes, &mut known, &table, cap);
    drop(changes);
    drop(known);
    let short = short?;
    Ok(Ready { table, rows, short })
}
