//! What sections are: accepted or refused, in which normal form, and whether two say the same.

ghost use Rattle.std.specs.Prelude.{◌≡◌};
ghost use Rattle.dw_library.specs.{Answers.target_of, Checked.IsChecked, Forms.{IsCompared, IsNormalised, target_of_both}};

use crate::answer::{Counts, Refused, Section, put_front, refuse, target_of};
use crate::names::Status;
use dw_normal::{SameError, Which, normalise, same};
use dw_num::{ReadError, Target};
use dw_section::{EntryCounts, check};
use std::alloc::Global;

/// Judges a section: `OK` and how many entries it has where it is accepted, `REFUSED` with its first fault where it is not.
#[unsafe(no_mangle)]
pub extern "C" fn dwframe_check(
    alloc: Global,
    section: &Section<'_>,
    counts: &mut Counts,
    refused: &mut Refused,
) -> u32
    ensures { IsChecked (target_of section.now.address_size section.now.byte_order) section.now.bytes.now result counts.new refused.new }
{
    *counts = Counts::default();
    *refused = Refused::default();
    let Some(target) = target_of(section.address_size, section.byte_order) else {
        return Status::BadArgument as u32;
    };
    match check(alloc, section.bytes, target) {
        Ok(table) => {
            let EntryCounts { cies, fdes } = table.counts();
            *counts = Counts { cies, fdes };
            Status::Ok as u32
        }
        Err(ReadError::Refused(refusal)) => refuse(refused, 1, refusal),
        Err(ReadError::OutOfMemory) => Status::OutOfMemory as u32,
    }
}

const LIMIT: u64 = 2_147_483_647;

/// Writes the normal form of a section to the front of `out`, and its length to `needed`. Where `out` is shorter it answers
/// `TOO_SHORT` with that length, and `out` stays; it stays also where the section is refused.
#[unsafe(no_mangle)]
pub extern "C" fn dwframe_normalise(
    alloc: Global,
    section: &Section<'_>,
    out: &mut [u8],
    needed: &mut usize,
    refused: &mut Refused,
) -> u32
    ensures { IsNormalised (target_of section.now.address_size section.now.byte_order) section.now.bytes.now result out.old out.new needed.new refused.new }
{
    *needed = 0;
    *refused = Refused::default();
    let Some(target) = target_of(section.address_size, section.byte_order) else {
        return Status::BadArgument as u32;
    };
    match normalise(alloc, section.bytes, target, LIMIT) {
        Ok(normal) => {
            *needed = normal.len();
            put_front(&normal, out)
        }
        Err(ReadError::Refused(refusal)) => refuse(refused, 1, refusal),
        Err(ReadError::OutOfMemory) => Status::OutOfMemory as u32,
    }
}

// The machine of two sections, where it is one.
fn target_of_both(first: &Section<'_>, second: &Section<'_>) -> Option<Target>
    ensures { result ≡ target_of_both first.now.address_size first.now.byte_order second.now.address_size second.now.byte_order }
{
    if first.address_size != second.address_size || first.byte_order != second.byte_order {
        return None;
    }
    target_of(first.address_size, first.byte_order)
}

/// Whether two sections say the same: `alike` is 1 where they do, and else 0. A refusal says which of the two is refused.
#[unsafe(no_mangle)]
pub extern "C" fn dwframe_same(
    alloc: Global,
    first: &Section<'_>,
    second: &Section<'_>,
    alike: &mut u32,
    refused: &mut Refused,
) -> u32
    ensures { IsCompared (target_of_both first.now.address_size first.now.byte_order second.now.address_size second.now.byte_order)
        first.now.bytes.now second.now.bytes.now result alike.new refused.new }
{
    *alike = 0;
    *refused = Refused::default();
    let Some(target) = target_of_both(first, second) else {
        return Status::BadArgument as u32;
    };
    match same(alloc, first.bytes, second.bytes, target) {
        Ok(same) => {
            *alike = u32::from(same);
            Status::Ok as u32
        }
        Err(SameError::Refused(Which::First, refusal)) => refuse(refused, 1, refusal),
        Err(SameError::Refused(Which::Second, refusal)) => refuse(refused, 2, refusal),
        Err(SameError::OutOfMemory) => Status::OutOfMemory as u32,
    }
}
