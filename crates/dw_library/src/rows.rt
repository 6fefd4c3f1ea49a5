//! Many rows by one call: those of many addresses, and those of an FDE, one after another.

ghost use Rattle.std.specs.Prelude.{◌≡◌, ◌+◌, ◌^◌, ◌<◌, ◌≤◌, ℕ, length, None, Some, IfErr, IfOk, OnErr};
ghost use Rattle.dw_num.specs.Refusals.{Refuses};
ghost use Rattle.dw_op.specs.Faults.{IsWithin};
ghost use Rattle.dw_section.specs.{Ranges.IsTable, StandingChanges.ChangesFault};
ghost use Rattle.dw_section.specs.StandingFde.{Misleads, RefusesAs};
ghost use Rattle.dw_section.specs.declared.standing_fde.LookUpError.TheVariants.{BadIndex};
ghost use Rattle.dw_library.specs.{Answers.target_of, Looks.{AreLooks, TellsLooks, ToldRows}};
ghost use Rattle.dw_library.specs.Changes.{AreAllChanges, AreAnyChanges, AreOwnChanges, AreWritten};
ghost use Rattle.dw_library.specs.Changes.{Fits, TellsCovering, Told, no_totals};
ghost use Rattle.dw_library.specs.Inner.{Changes.{CoveringOwn, CoveringAny, WritesMore}, Looks.IsPut};

use crate::answer::{Refused, Section, put_at, refuse, target_of};
use crate::index::{Row, Rule, told_row};
use crate::names::Status;
use dw_cfa::RowRoom;
use dw_num::{ReadError, Target};
use dw_row::Row as CfaRow;
use dw_section::{Fde, IndexedChanges, LookUpError, Ranged, Table, check, fde_by_index};
use std::alloc::{AllocError, Global};

// Writes the row of an address, and its rules to the front of a buffer, and tells how many rules there are.
fn put_look<'a>(
    table: &Table<'a>,
    room: &mut RowRoom<'a>,
    address: u64,
    row: &mut Row,
    rules: &mut [Rule],
) -> Result<usize, AllocError>
    ensures look { IfOk result (IsPut table.now.target table.now.bytes address rules.old row.new rules.new) }
    ensures kept { OnErr result ((row.new ≡ row.old) × (rules.new ≡ rules.old)) }
{
    table.accepted();
    let Some(found) = table.look_up(address, room)? else {
        *row = Row::default();
        return Ok(0);
    };
    *row = told_row(found, room.row(), rules);
    Ok(row.count)
}

// Writes a row for each address, and their rules one after another.
fn put_looks<'a>(
    table: &Table<'a>,
    room: &mut RowRoom<'a>,
    addresses: &[u64],
    rows: &mut [Row],
    rules: &mut [Rule],
    done: &mut usize,
) -> u32
    requires rows { length addresses.now ≤ length rows.old }
    requires done { done.old ≡ 0 }
    ensures { let told : ToldRows = record { status = result; done = done.new; rows = rows.new; rules = rules.new } in
        TellsLooks table.now.target table.now.bytes addresses.now rows.old rules.old told }
{
    let mut total: u128 = 0;
    let size = rules.len() as u128;
    'addresses: for place in 0..addresses.len() {
        let (address, row) = (addresses[place], &mut rows[place]);
        let behind = &mut rules[total.min(size) as usize..];
        let Ok(count) = put_look(table, room, address, row, behind) else {
            return Status::OutOfMemory as u32;
        };
        total = total.saturating_add(count as u128);
        *done = place + 1;
    }
    if total > size {
        return Status::TooShort as u32;
    }
    Status::Ok as u32
}

/// The rows of many addresses: the section is judged once, and each address is looked up in it. Where there are fewer rows
/// than addresses it answers `TOO_SHORT`, and nothing is written.
#[unsafe(no_mangle)]
pub extern "C" fn dwframe_rows_at(
    alloc: Global,
    section: &Section<'_>,
    addresses: &[u64],
    rows: &mut [Row],
    rules: &mut [Rule],
    done: &mut usize,
    refused: &mut Refused,
) -> u32
    ensures { let told : ToldRows = record { status = result; done = done.new; rows = rows.new; rules = rules.new } in
        AreLooks (target_of section.now.address_size section.now.byte_order) section.now.bytes.now addresses.now rows.old rules.old told refused.new }
{
    *done = 0;
    *refused = Refused::default();
    let Some(target) = target_of(section.address_size, section.byte_order) else {
        return Status::BadArgument as u32;
    };
    if rows.len() < addresses.len() {
        return Status::TooShort as u32;
    }
    match check(alloc, section.bytes, target) {
        Ok(table) => {
            let mut room = RowRoom::new(alloc);
            put_looks(&table, &mut room, addresses, rows, rules, done)
        }
        Err(ReadError::Refused(refusal)) => refuse(refused, 1, refusal),
        Err(ReadError::OutOfMemory) => Status::OutOfMemory as u32,
    }
}

/// A row of an FDE (6.4.1), and the first address that has it: the begin of the FDE, or one at which a rule is not that one address
/// before. The row holds up to the next one, or to the end of the FDE.
#[repr(C)]
#[derive(Clone, Copy)]
pub struct Change {
    /// The first address that has the row.
    pub address: u64,
    /// The row.
    pub row: Row,
}

/// How many rows an FDE has, and how many rules of registers they have together, each 2^64 - 1 where there are more.
#[repr(C)]
#[derive(Clone, Copy, Default)]
pub struct Totals {
    /// How many rows.
    pub changes: usize,
    /// How many rules of registers.
    pub rules: usize,
}

// Writes a change and its rules behind those before, as far as they fit, and says how many there are then.
fn put_change(
    row: &CfaRow<'_>,
    fde: Fde,
    address: u64,
    before: Totals,
    out: &mut [Change],
    rules: &mut [Rule],
) -> Totals
    requires range { (range : ℕ) × (range < 2 ^ 64) × (fde.end ≡ fde.begin + range) }
    ensures { WritesMore fde (address, row.now) out.old rules.old before out.new rules.new result }
{
    let place = before.rules.min(rules.len());
    let row = told_row(fde, row, &mut rules[place..]);
    put_at(Change { address, row }, out, before.changes);
    Totals {
        changes: before.changes.saturating_add(1),
        rules: before.rules.saturating_add(row.count),
    }
}

// Writes the changes of an FDE that are to come, and says how many there are; or why its programs are refused.
fn put_changes(
    changes: &mut IndexedChanges<'_>,
    fde: Fde,
    out: &mut [Change],
    rules: &mut [Rule],
) -> Result<Totals, ReadError>
    requires range { (range : ℕ) × (range < 2 ^ 64) × (fde.end ≡ fde.begin + range) }
    ensures written { IfOk result (λ totals. (changes.old.fault ≡ None)
        × AreWritten fde changes.old.to_come out.old rules.old out.new rules.new totals) }
    ensures refused { IfErr result (Refuses (λ r. changes.old.fault ≡ Some r)) }
{
    let mut totals = Totals::default();
    'told: while let Some(address) = changes.advance()? {
        totals = put_change(changes.row(), fde, address, totals, out, rules);
    }
    Ok(totals)
}

// Whether so many changes and rules fit into rooms of these sizes.
fn room_status(totals: Totals, out: usize, rules: usize) -> u32
    ensures { Fits totals out rules result }
{
    if totals.changes <= out && totals.rules <= rules {
        return Status::Ok as u32;
    }
    Status::TooShort as u32
}

// Writes the changes of the FDE that covers an address by an index, or answers why there are none.
fn put_covering(
    alloc: Global,
    bytes: &[u8],
    target: Target,
    index: &[Ranged],
    address: u64,
    out: &mut [Change],
    rules: &mut [Rule],
    needed: &mut Totals,
) -> Result<u32, LookUpError>
    requires none { needed.old ≡ no_totals }
    ensures own { IsTable target bytes.now index.now
        → CoveringOwn target bytes.now address out.old rules.old out.new rules.new needed.new result }
    ensures any { CoveringAny target bytes.now index.now address out.old rules.old out.new rules.new needed.new result }
    ensures bad { IfErr result (λ e. e ≡ BadIndex → Misleads target bytes.now index.now address
        × (out.new ≡ out.old) × (rules.new ≡ rules.old)) }
    ensures within { IfErr result (RefusesAs (IsWithin bytes.now)) }
    ensures refused { IfErr result (RefusesAs (ChangesFault target bytes.now index.now address)) }
    ensures none { OnErr result (needed.new ≡ no_totals) }
{
    let Some(found) = fde_by_index(bytes, target, index, address)? else {
        return Ok(Status::NoFde as u32);
    };
    let mut changes = found.changes(alloc);
    let totals = put_changes(&mut changes, found.fde(), out, rules);
    drop(changes);
    match totals {
        Ok(totals) => {
            *needed = totals;
            Ok(room_status(totals, out.len(), rules.len()))
        }
        Err(ReadError::Refused(refusal)) => Err(LookUpError::Refused(refusal)),
        Err(ReadError::OutOfMemory) => Err(LookUpError::OutOfMemory),
    }
}

// The same by the index of a table.
fn put_listed(
    alloc: Global,
    table: &Table<'_>,
    address: u64,
    out: &mut [Change],
    rules: &mut [Rule],
    needed: &mut Totals,
) -> u32
    requires none { needed.old ≡ no_totals }
    ensures { let told : Told = record { status = result; changes = out.new; rules = rules.new; needed = needed.new }
        in TellsCovering table.now.target table.now.bytes address out.old rules.old told }
{
    let (bytes, target) = (table.bytes(), table.target());
    match put_covering(
        alloc,
        bytes,
        target,
        table.index(),
        address,
        out,
        rules,
        needed,
    ) {
        Ok(status) => status,
        Err(_) => Status::OutOfMemory as u32,
    }
}

/// The rows of the FDE that covers an address, one after another. The section is judged, and the
/// FDE's program is run once. The rows are written to `changes` and the rules of their registers one
/// after another to `rules`, as many as fit, and `needed` says how many there are of both. Behind
/// `OUT_OF_MEMORY` it says 0, and both buffers hold anything.
#[unsafe(no_mangle)]
pub extern "C" fn dwframe_changes(
    alloc: Global,
    section: &Section<'_>,
    address: u64,
    changes: &mut [Change],
    rules: &mut [Rule],
    needed: &mut Totals,
    refused: &mut Refused,
) -> u32
    ensures { let told : Told = record { status = result; changes = changes.new; rules = rules.new; needed = needed.new } in
        AreAllChanges (target_of section.now.address_size section.now.byte_order) section.now.bytes.now address changes.old rules.old told refused.new }
{
    *needed = Totals::default();
    *refused = Refused::default();
    let Some(target) = target_of(section.address_size, section.byte_order) else {
        return Status::BadArgument as u32;
    };
    match check(alloc, section.bytes, target) {
        Ok(table) => put_listed(alloc, &table, address, changes, rules, needed),
        Err(ReadError::Refused(refusal)) => refuse(refused, 1, refusal),
        Err(ReadError::OutOfMemory) => Status::OutOfMemory as u32,
    }
}

/// The same by an index: the rows of the FDE that stands at the place of the entry that covers the
/// address. This FDE and its CIE are read and judged anew, both programs to their ends, and the rest
/// of the section is not. So an index of other bytes is answered by what they say there, or by a
/// status. Behind `REFUSED` and `OUT_OF_MEMORY` `needed` says 0, and both buffers hold anything.
#[unsafe(no_mangle)]
pub extern "C" fn dwframe_changes_at(
    alloc: Global,
    section: &Section<'_>,
    index: &[Ranged],
    address: u64,
    changes: &mut [Change],
    rules: &mut [Rule],
    needed: &mut Totals,
    refused: &mut Refused,
) -> u32
    // By the index of an accepted section it tells what `dwframe_changes` does.
    ensures own { let told : Told = record { status = result; changes = changes.new; rules = rules.new; needed = needed.new }
        in AreOwnChanges (target_of section.now.address_size section.now.byte_order) section.now.bytes.now
        index.now address changes.old rules.old told refused.new }
    // By any other it tells the changes of the FDE that stands where an entry leads that covers the
    // address, or that no entry does, or that no such FDE stands there.
    ensures any { let told : Told = record { status = result; changes = changes.new; rules = rules.new; needed = needed.new }
        in AreAnyChanges (target_of section.now.address_size section.now.byte_order) section.now.bytes.now
        index.now address changes.old rules.old told refused.new }
{
    *needed = Totals::default();
    *refused = Refused::default();
    let Some(target) = target_of(section.address_size, section.byte_order) else {
        return Status::BadArgument as u32;
    };
    match put_covering(
        alloc,
        section.bytes,
        target,
        index,
        address,
        changes,
        rules,
        needed,
    ) {
        Ok(status) => status,
        Err(LookUpError::Refused(refusal)) => refuse(refused, 1, refusal),
        Err(LookUpError::BadIndex) => Status::BadIndex as u32,
        Err(LookUpError::OutOfMemory) => Status::OutOfMemory as u32,
    }
}
