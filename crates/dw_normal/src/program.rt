//! Programs of the normal form, appended.

ghost use Rattle.std.specs.{Prelude.{◌≡◌, ◌++◌, IfOk, OnOk}, List.AllByRecursion};
ghost use Rattle.dw_row.specs.{Rows.rule, Inner.Agreement.same_rule, declared.rule.RegRule.TheVariants.Offset};
ghost use Rattle.dw_canon.specs.Inner.{Difference.{cfa_difference, rule_to}, Fits.InstrFits, Spelling.{instr_bytes, program_bytes}};
ghost use Rattle.dw_normal.specs.Inner.{Apart.StandsApart, ChangeWalk.{GoesOn, IsShown, Stand, shown_row}, Differences.{CanLead, Leads, Tells}};

use crate::apart::{Apart, Differences};
use crate::instruction::{
    Appended, push_cfa_offset, push_move, push_offset, push_other_cfa, push_packed, push_rule,
};
use dw_num::Target;
use dw_row::{CfaRule, Row};
use dw_section::Changes;
use std::alloc::AllocError;

// Appends what leads from the CFA's rule of one row to that of another: mostly another offset from the same register.
#[inline(always)]
fn push_cfa<'a>(before: &Row<'a>, after: &Row<'a>, out: &mut Vec<u8>, target: Target) -> Appended
    requires { AllByRecursion (InstrFits target) (cfa_difference before.now.cfa after.now.cfa) }
    ensures { OnOk result (out.new.items ≡ out.old.items ++ program_bytes target (cfa_difference before.now.cfa after.now.cfa)) }
{
    let (old, new) = (before.cfa_rule(), after.cfa_rule());
    match (old, new) {
        (
            CfaRule::Register { register, offset },
            CfaRule::Register {
                register: r,
                offset: n,
            },
        ) if *register == *r => {
            if *offset == *n {
                return Ok(());
            }
            push_cfa_offset(out, *n, target)
        }
        _ => push_other_cfa(old, new, out, target),
    }
}

// Whether the rule of a register of a row is the initial one, which `Restore` gives it.
#[inline(always)]
fn is_restored<'a>(row: &Row<'a>, initial: &Row<'a>, register: u16) -> bool
    ensures { result ≡ same_rule (rule row.now register) (rule initial.now register) }
{
    row.has_same_rule(initial, register)
}

// Whether a row saves a register at an offset from the CFA.
#[inline(always)]
fn is_saved_at(row: &Row<'_>, register: u16, offset: i64) -> bool
    ensures { result ≡ same_rule (Offset offset) (rule row.now register) }
{
    match row.offset_of(register) {
        Some(other) => offset == other,
        None => false,
    }
}

// Appends what gives a register its rule of a row: `Restore` where it is the initial one, and else mostly that it is saved, where no rule is moved about.
#[inline(always)]
#[tactic(auto, unfolding(dw_canon::specs::Spelling::instr_bytes))]
fn push_register<'a>(
    shared: &Row<'a>,
    row: &Row<'a>,
    out: &mut Vec<u8>,
    register: u16,
    target: Target,
) -> Appended
    requires { InstrFits target (rule_to shared.now register (rule row.now register)) }
    ensures { OnOk result (out.new.items ≡ out.old.items ++ instr_bytes target (rule_to shared.now register (rule row.now register))) }
{
    let Some(offset) = row.offset_of(register) else {
        if is_restored(row, shared, register) {
            return push_packed(out, 0xc0, 0x06, register);
        }
        return push_rule(row, out, register, target);
    };
    if is_saved_at(shared, register, offset) {
        return push_packed(out, 0xc0, 0x06, register);
    }
    push_offset(out, register, offset)
}

/// Appends what leads from one row to another, where a third has the initial rules. It may leave some of it where memory runs out.
#[inline(always)]
pub(crate) fn push_difference<'a>(
    differences: Differences<'_, 'a>,
    shared: &Row<'a>,
    before: &Row<'a>,
    after: &Row<'a>,
    out: &mut Vec<u8>,
    target: Target,
) -> Appended
    requires tells { Tells differences before.now after.now }
    requires fits { CanLead target shared.now before.now after.now }
    ensures { OnOk result (Leads target shared.now before.now after.now out.old.items out.new.items) }
{
    push_cfa(before, after, out, target)?;
    let mut last = None;
    'registers: while let Some(register) = differences.next(before, after, last) {
        push_register(shared, after, out, register, target)?;
        last = Some(register);
    }
    Ok(())
}

/// Appends what leads from an initial row to the one that is shown. Out of line: the loop over an FDE's changes is slower beside it.
#[inline(never)]
pub(crate) fn push_first<'a>(
    apart: &Apart<'a>,
    shared: &Row<'a>,
    changes: &Changes<'a>,
    out: &mut Vec<u8>,
    target: Target,
) -> Appended
    requires shown { IsShown changes.now }
    requires apart { StandsApart apart.now shared.now (shown_row changes.now) }
    requires fits { CanLead target shared.now shared.now (shown_row changes.now) }
    ensures { OnOk result (Leads target shared.now shared.now (shown_row changes.now) out.old.items out.new.items) }
{
    let Some(first) = changes.row() else {
        unreachable!();
    };
    push_difference(apart.differences(), shared, shared, first, out, target)
}

// Goes on to the next change, appends what leads to it from the row that is shown at an address, and answers its address.
#[inline(always)]
fn push_next<'a>(
    changes: &mut Changes<'a>,
    shared: &Row<'a>,
    out: &mut Vec<u8>,
    at: u64,
    target: Target,
) -> Result<Option<u64>, AllocError>
    requires { Stand target shared.now at changes.old }
    ensures goes { IfOk result (λ next. GoesOn target shared.now at changes.old out.old.items next changes.new out.new.items) }
    ensures section { changes.new.section ≡ changes.old.section }
{
    let Some(to) = changes.advance()? else {
        return Ok(None);
    };
    let address = to as u64;
    push_move(out, at, address, target)?;
    let (Some(before), Some(row)) = (changes.before(), changes.row()) else {
        unreachable!();
    };
    let altered = Differences::Altered(changes);
    push_difference(altered, shared, before, row, out, target)?;
    Ok(Some(address))
}

/// Appends the changes that are still to come behind an address, whose row is shown, up to one behind which there are so many bytes,
/// and answers its address; or none where all were appended.
pub(crate) fn push_later<'a>(
    changes: &mut Changes<'a>,
    shared: &Row<'a>,
    out: &mut Vec<u8>,
    begin: u64,
    target: Target,
    most: usize,
) -> Result<Option<u64>, AllocError>
    requires { Stand target shared.now begin changes.old }
    ensures goes { IfOk result (λ next. GoesOn target shared.now begin changes.old out.old.items next changes.new out.new.items) }
    ensures section { changes.new.section ≡ changes.old.section }
{
    let mut at = begin;
    'changes: while let Some(address) = push_next(changes, shared, out, at, target)? {
        if out.len() >= most {
            return Ok(Some(address));
        }
        at = address;
    }
    Ok(None)
}
