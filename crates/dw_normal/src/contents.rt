//! An entry, built with room for its length.

ghost use Rattle.std.specs.{Prelude.{◌≡◌, ℕ, ◌+◌, ◌++◌, ◌<◌, ◌≤◌, ◌^◌, List, drop, length, OnOk}, List.AllByRecursion};
ghost use Rattle.dw_num.specs.{Fixed.fixed_bytes, Target.{address_limit, byte_count}};
ghost use Rattle.dw_canon.specs.{Written.fde_field_bytes, Inner.{Canon.cie_instrs, Fits.InstrFits, Spelling.program_bytes}};
ghost use Rattle.dw_normal.specs.Inner.{Begun.{IsReady, KeepsFde}, ChangeWalk.{Stand, later_bytes}, Lengths.cie_with, Puts.{Fills, Holds, SameRoom}};
ghost use Rattle.dw_normal.specs.Inner.Writing.{FillsBegun, unsized};

use crate::apart::Differences;
use crate::begun::Begun;
use crate::instruction::push_uleb;
use crate::output::{Output, Stop};
use crate::program::{push_difference, push_first, push_later};
use byteorder::{BigEndian, ByteOrder, LittleEndian};
use dw_num::{Order, Size, Target, put_fixed};
use dw_row::Row;
use dw_section::Changes;
use std::alloc::AllocError;

// Changes that are counted alone are written up to so many bytes at a time.
const CHUNK: usize = 65_536;

// Appends what leads from a row without rules to an initial one.
fn push_initial<'a>(initial: &Row<'a>, out: &mut Vec<u8>, target: Target) -> Result<(), AllocError>
    requires { AllByRecursion (InstrFits target) (cie_instrs initial.now) }
    ensures { OnOk result (out.new.items ≡ out.old.items ++ program_bytes target (cie_instrs initial.now)) }
{
    let blank = Row::blank(*out.allocator());
    push_difference(Differences::Rows, &blank, &blank, initial, out, target)
}

pub(crate) fn fill_cie<'a>(
    initial: &Row<'a>,
    out: &mut Output,
    register: u16,
    target: Target,
) -> Result<(), Stop>
    requires room { out.old.room ≤ 2147483647 }
    requires fits { AllByRecursion (InstrFits target) (cie_instrs initial.now) }
    ensures contents { Fills (unsized target (cie_with target (register, initial.now))) result out.old out.new }
    ensures room { SameRoom out.old out.new }
{
    let bytes = &mut out.bytes;
    bytes.clear();
    put_fixed(bytes, target.order, 4, 0)?;
    put_fixed(bytes, target.order, 4, 0xffffffff)?;
    // Version 4, no augmentation, the factors 1 and -1.
    bytes.extend_from_slice(&[4, 0, target.size.byte_count(), 0, 1, 127])?;
    push_uleb(bytes, u64::from(register))?;
    push_initial(initial, bytes, target)?;
    out.gone = 0;
    out.push_nops(target.size)
}

/// Writes a number of four or eight bytes at the front of a slice.
#[inline(always)]
pub(crate) fn write_number(bytes: &mut [u8], order: Order, size: Size, number: u64)
    requires room { byte_count size ≤ length bytes.old }
    requires fits { number < address_limit size }
    ensures { bytes.new ≡ fixed_bytes order (byte_count size) number ++ drop (byte_count size) bytes.old }
{
    match (order, size) {
        (Order::Little, Size::Four) => LittleEndian::write_u32(bytes, number as u32),
        (Order::Little, Size::Eight) => LittleEndian::write_u64(bytes, number),
        (Order::Big, Size::Four) => BigEndian::write_u32(bytes, number as u32),
        (Order::Big, Size::Eight) => BigEndian::write_u64(bytes, number),
    }
}

// Makes a buffer room for the length of an FDE, and what stands before its program.
#[inline(always)]
fn begin_fde_entry(
    out: &mut Vec<u8>,
    cie_at: u64,
    begin: u64,
    range: u64,
    target: Target,
) -> Result<(), AllocError>
    requires cie_at { cie_at < 2 ^ 32 }
    requires begin { begin < address_limit target.size }
    requires range { range < address_limit target.size }
    ensures { OnOk result (out.new.items ≡ fixed_bytes target.order 4 0 ++ fde_field_bytes target cie_at begin range) }
{
    let mut fields = [0; 24];
    write_number(&mut fields[4..], target.order, Size::Four, cie_at);
    write_number(&mut fields[8..], target.order, target.size, begin);
    out.clear();
    match target.size {
        Size::Four => {
            write_number(&mut fields[12..], target.order, Size::Four, range);
            out.extend_from_slice(&fields[..16])
        }
        Size::Eight => {
            write_number(&mut fields[16..], target.order, Size::Eight, range);
            out.extend_from_slice(&fields)
        }
    }
}

// Appends the changes that are still to come behind an address, whose row is shown. Where they are counted alone, few of them are held.
fn push_changes<'a>(
    changes: &mut Changes<'a>,
    shared: &Row<'a>,
    out: &mut Output,
    begin: u64,
    target: Target,
) -> Result<(), Stop>
    requires stand { Stand target shared.now begin changes.old }
    requires holds { (front : List ℕ) × Holds out.old front }
    ensures contents { (front : List ℕ) → Holds out.old front → Fills (front ++ later_bytes target shared.now begin changes.old) result out.old out.new }
    ensures room { SameRoom out.old out.new }
    ensures section { changes.new.section ≡ changes.old.section }
{
    let most = if out.counts { CHUNK } else { usize::MAX };
    let mut at = begin;
    'changes: while let Some(next) = push_later(
        changes,
        shared,
        &mut out.bytes,
        at,
        target,
        most,
    )? {
        out.let_go()?;
        at = next;
    }
    Ok(())
}

pub(crate) fn fill_fde(
    begun: &mut Begun<'_, '_>,
    out: &mut Output,
    target: Target,
) -> Result<(), Stop>
    requires room { out.old.room ≤ 2147483647 }
    requires ready { IsReady target begun.old }
    requires cie_at { begun.old.cie_at < 2 ^ 32 }
    requires begin { begun.old.fde.begin < address_limit target.size }
    requires rises { begun.old.fde.begin ≤ begun.old.fde.end }
    requires range { begun.old.fde.end < begun.old.fde.begin + address_limit target.size }
    ensures contents { FillsBegun target begun.old result out.old out.new }
    ensures room { SameRoom out.old out.new }
    ensures section { begun.new.changes.section ≡ begun.old.changes.section }
    ensures kept { KeepsFde begun.old begun.new }
{
    let (listed, shared) = (begun.fde, begun.shared);
    let begin = u128::from(listed.begin);
    let range = (listed.end - begin) as u64;
    begin_fde_entry(&mut out.bytes, begun.cie_at, listed.begin, range, target)?;
    push_first(&begun.apart, shared, &begun.changes, &mut out.bytes, target)?;
    out.gone = 0;
    push_changes(&mut begun.changes, shared, out, listed.begin, target)?;
    out.push_nops(target.size)
}
