//! Look-ups by an index that the caller keeps.

ghost use Rattle.std.specs.Prelude.{◌≡◌, ◌+◌, ◌^◌, ◌<◌, ℕ, IfErr, OnErr, length, map};
ghost use Rattle.dw_op.specs.Faults.{IsWithin};
ghost use Rattle.dw_section.specs.{Ranges.IsTable, StandingFde.{LookUpFault, Misleads, RefusesAs}, declared.standing_fde.LookUpError.TheVariants.BadIndex};
ghost use Rattle.dw_library.specs.{Answers.target_of, Index.{HasSize, IsAnyRow, IsIndexed, IsRow, IsTold}};
ghost use Rattle.dw_library.specs.{Index.{Told, cfa_kind_of, over, row_of, rule_of}, Inner.Index.{TellsAny, TellsOwn}};

use crate::answer::{Refused, Section, put_at, put_front, refuse, target_of};
use crate::names::Status;
use dw_cfa::RowRoom;
use dw_num::{ReadError, Target};
use dw_row::{CfaRule, RegRule, Row as CfaRow};
use dw_section::{Fde, LookUpError, Ranged, check, fde_by_index};
use std::alloc::Global;

/// The rule of a register (6.4.2.3): its number, the kind, and the other register or the offset that the kind names.
#[repr(C)]
#[derive(Clone, Copy)]
pub struct Rule {
    /// The register's DWARF number.
    pub number: u16,
    /// 1 `DW_CFA_undefined`, 2 `DW_CFA_same_value`, 3 `DW_CFA_offset`, 4 `DW_CFA_val_offset`, 5 `DW_CFA_register`,
    /// 6 `DW_CFA_expression`, 7 `DW_CFA_val_expression`.
    pub kind: u16,
    /// The register of `DW_CFA_register`.
    pub other: u16,
    /// 0.
    pub reserved: u16,
    /// The offset of `DW_CFA_offset` and `DW_CFA_val_offset`, in bytes.
    pub offset: i64,
}

/// The row of an address: its FDE's first address and how many it covers, the rule of the CFA, how many registers have a
/// rule, and the number of the one that holds the return address. All are 0 where there is none.
#[repr(C)]
#[derive(Clone, Copy, Default)]
pub struct Row {
    /// `initial_location` of the FDE (6.4.1).
    pub begin: u64,
    /// Its `address_range`.
    pub range: u64,
    /// The offset of `DW_CFA_def_cfa`, in bytes.
    pub cfa_offset: i64,
    /// How many registers have a rule.
    pub count: usize,
    /// 1 `DW_CFA_def_cfa`, 2 `DW_CFA_def_cfa_expression`; 0 where there is no row, or where the row, of bytes that were not checked, has no rule for the CFA.
    pub cfa_kind: u32,
    /// The register of `DW_CFA_def_cfa`.
    pub cfa_register: u16,
    /// `return_address_register` of the CIE.
    pub return_register: u16,
}

/// How many entries the index of a section has.
#[unsafe(no_mangle)]
pub extern "C" fn dwframe_index_size(
    alloc: Global,
    section: &Section<'_>,
    size: &mut usize,
    refused: &mut Refused,
) -> u32
    ensures { HasSize (target_of section.now.address_size section.now.byte_order) section.now.bytes.now result size.new refused.new }
{
    let status = dwframe_index(alloc, section, &mut [], size, refused);
    if status == Status::TooShort as u32 {
        return Status::Ok as u32;
    }
    status
}

/// Writes the index of a section to the front of `out`, and how many entries it has to `written`. Where `out` is shorter it
/// answers `TOO_SHORT` with that number, and `out` stays; it stays also where the section is refused.
#[unsafe(no_mangle)]
pub extern "C" fn dwframe_index(
    alloc: Global,
    section: &Section<'_>,
    out: &mut [Ranged],
    written: &mut usize,
    refused: &mut Refused,
) -> u32
    ensures { IsIndexed (target_of section.now.address_size section.now.byte_order) section.now.bytes.now result out.old out.new written.new refused.new }
{
    *written = 0;
    *refused = Refused::default();
    let Some(target) = target_of(section.address_size, section.byte_order) else {
        return Status::BadArgument as u32;
    };
    match check(alloc, section.bytes, target) {
        Ok(table) => {
            let index = table.index();
            *written = index.len();
            put_front(index, out)
        }
        Err(ReadError::Refused(refusal)) => refuse(refused, 1, refusal),
        Err(ReadError::OutOfMemory) => Status::OutOfMemory as u32,
    }
}

// The rule of a register whose rule has no more than a kind and what that names.
#[inline(always)]
fn told_rule(number: u16, kind: u16, other: u16, offset: i64) -> Rule
    ensures { result ≡ record { number = number; kind = kind; other = other; reserved = 0; offset = offset } }
{
    Rule {
        number,
        kind,
        other,
        reserved: 0,
        offset,
    }
}

#[inline(never)]
fn any_rule(number: u16, rule: &RegRule<'_>) -> Rule
    ensures told { result ≡ rule_of (number, rule.now) }
    ensures fits { number < 65536 }
{
    match rule {
        RegRule::Unspecified => told_rule(number, 0, 0, 0),
        RegRule::Undefined => told_rule(number, 1, 0, 0),
        RegRule::SameValue => told_rule(number, 2, 0, 0),
        RegRule::Offset(offset) => told_rule(number, 3, 0, *offset),
        RegRule::ValOffset(offset) => told_rule(number, 4, 0, *offset),
        RegRule::Register(register) => told_rule(number, 5, *register, 0),
        RegRule::Expression(_) => told_rule(number, 6, 0, 0),
        RegRule::ValExpression(_) => told_rule(number, 7, 0, 0),
    }
}

// Writes the rules of a row to the front of a buffer, as many as fit, and tells how many there are.
#[inline(always)]
fn put_rules(row: &CfaRow<'_>, out: &mut [Rule]) -> usize
    ensures count { result ≡ length row.now.registers }
    ensures rules { out.new ≡ over (map rule_of row.now.registers) out.old }
{
    let mut rules = row.specified();
    let mut count: usize = 0;
    'rules: loop {
        if let Some((number, offset)) = rules.next_offset() {
            put_at(told_rule(number, 3, 0, offset), out, count);
            count += 1;
            continue;
        }
        let Some((number, rule)) = rules.next() else {
            return count;
        };
        put_at(any_rule(number, &rule), out, count);
        count += 1;
    }
}

// The kind of a rule for the CFA. Out of line, as most are a register plus an offset.
#[inline(never)]
fn other_kind(cfa: &CfaRule<'_>) -> u32
    ensures { result ≡ cfa_kind_of cfa.now }
{
    match cfa {
        CfaRule::Unset => 0,
        CfaRule::Register { .. } => 1,
        CfaRule::Expression(_) => 2,
    }
}

/// What is told of an FDE and of a row of it, whose rules are written to the front of a buffer, as many as fit.
#[inline(always)]
pub(crate) fn told_row(fde: Fde, row: &CfaRow<'_>, out: &mut [Rule]) -> Row
    requires range { (range : ℕ) × (range < 2 ^ 64) × (fde.end ≡ fde.begin + range) }
    ensures told { IsTold (record { fde = fde; row = row.now }) result }
    ensures exact { result ≡ row_of fde row.now }
    ensures rules { out.new ≡ over (map rule_of row.now.registers) out.old }
{
    let count = put_rules(row, out);
    let cfa = row.cfa_rule();
    let (cfa_kind, cfa_register, cfa_offset) = match cfa {
        CfaRule::Register { register, offset } => (1, *register, *offset),
        _ => (other_kind(cfa), 0, 0),
    };
    Row {
        begin: fde.begin,
        range: (fde.end - u128::from(fde.begin)) as u64,
        cfa_offset,
        count,
        cfa_kind,
        cfa_register,
        return_register: fde.return_register,
    }
}

// Writes the row of an address, or the empty row where no FDE covers it, or answers why there is none.
fn put_row(
    alloc: Global,
    bytes: &[u8],
    target: Target,
    index: &[Ranged],
    address: u64,
    out: &mut [Rule],
    row: &mut Row,
) -> Result<u32, LookUpError>
    ensures own { IsTable target bytes.now index.now → TellsOwn target bytes.now address out.old row.new out.new result }
    ensures any { TellsAny target bytes.now index.now address out.old row.new out.new result }
    ensures bad { IfErr result (λ e. e ≡ BadIndex → Misleads target bytes.now index.now address) }
    ensures within { IfErr result (RefusesAs (IsWithin bytes.now)) }
    ensures refused { IfErr result (RefusesAs (LookUpFault target bytes.now index.now address)) }
    ensures kept { OnErr result ((out.new ≡ out.old) × (row.new ≡ row.old)) }
{
    let mut room = RowRoom::new(alloc);
    let Some(found) = fde_by_index(bytes, target, index, address)? else {
        *row = Row::default();
        return Ok(Status::NoFde as u32);
    };
    found.run(&mut room)?;
    *row = told_row(found.fde(), room.row(), out);
    if row.count <= out.len() {
        return Ok(Status::Ok as u32);
    }
    Ok(Status::TooShort as u32)
}

/// The rules at an address, by an index: those of the FDE that stands at the place of the entry that covers the address. It is
/// read and judged anew, so an index of other bytes is answered by what they say there, or by a status.
#[unsafe(no_mangle)]
pub extern "C" fn dwframe_row_at(
    alloc: Global,
    section: &Section<'_>,
    index: &[Ranged],
    address: u64,
    rules: &mut [Rule],
    row: &mut Row,
    refused: &mut Refused,
) -> u32
    // By the index of an accepted section it tells what the section says.
    ensures own { let told : Told = record { status = result; row = row.new; rules = rules.new } in
        IsRow (target_of section.now.address_size section.now.byte_order) section.now.bytes.now index.now address rules.old told refused.new }
    // By any other it tells what the FDE says that stands where an entry that covers the address leads, or that no entry or no such FDE does.
    ensures any { let told : Told = record { status = result; row = row.new; rules = rules.new } in
        IsAnyRow (target_of section.now.address_size section.now.byte_order) section.now.bytes.now index.now address rules.old told refused.new }
{
    *refused = Refused::default();
    let Some(target) = target_of(section.address_size, section.byte_order) else {
        *row = Row::default();
        return Status::BadArgument as u32;
    };
    let error = match put_row(alloc, section.bytes, target, index, address, rules, row) {
        Ok(status) => return status,
        Err(error) => error,
    };
    *row = Row::default();
    match error {
        LookUpError::Refused(refusal) => refuse(refused, 1, refusal),
        LookUpError::BadIndex => Status::BadIndex as u32,
        LookUpError::OutOfMemory => Status::OutOfMemory as u32,
    }
}
