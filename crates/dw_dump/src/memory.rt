//! The memory of a dump: ranges of addresses that have bytes.

ghost use Rattle.std.specs.Prelude.{◌≡◌, ℕ, ◌+◌, ◌<◌, ◌≤◌, ◌^◌, length, take, slice_index_or, IfOk, MatchOption, Some, None};
ghost use Rattle.std.specs.{Bool.MatchBool, List.AllByRecursion, List.Sorted.{IsPermutation, IsNonDecreasingBy}};
ghost use Rattle.dw_eval.specs.Bytes.{bytes_from};
ghost use Rattle.dw_dump.specs.{Ranges.{byte_among, byte_in, end_of}, declared.memory.Range.{Range as TheRange}};
ghost use Rattle.dw_dump.specs.Inner.Ranges.{AreApart, IsSoundRange, Meet, Rise};

use dw_eval::{Memory, ReadFault};
use dw_num::{Order, number_of};
use std::alloc::{AllocError, Global};
use std::marker::Model;

/// Addresses that one line gives bytes, and where in the list of all bytes these stand.
#[derive(Clone, Copy)]
pub(crate) struct Range {
    pub(crate) address: u64,
    pub(crate) place: usize,
    pub(crate) len: usize,
    pub(crate) line: u64,
}

// Whether each range ends at or below the begin of the next.
fn ends_rise(list: &[Range]) -> bool
    ensures { MatchBool result
        ((k : ℕ) (d : TheRange) → k + 1 < length list.now → end_of (slice_index_or list.now k d) ≤ (slice_index_or list.now (k + 1) d).address)
        ((k : ℕ) × (k + 1 < length list.now) × ((d : TheRange) → (slice_index_or list.now (k + 1) d).address < end_of (slice_index_or list.now k d))) }
{
    for i in 1..list.len() {
        let before = &list[i - 1];
        if u128::from(list[i].address) < u128::from(before.address) + before.len as u128 {
            return false;
        }
    }
    true
}

fn put_in_order(list: &mut Vec<Range>)
    ensures same { IsPermutation list.old.items list.new.items }
    ensures rises { IsNonDecreasingBy (λ (r : TheRange). r.address) list.new.items }
{
    list.sort_unstable_by_key(|range| range.address);
}

fn are_apart(alloc: Global, ranges: &[Range]) -> Result<bool, AllocError>
    requires { AllByRecursion (λ (r : TheRange). 0 < r.len) ranges.now }
    ensures { IfOk result (λ apart. MatchBool apart (AreApart ranges.now) (Meet ranges.now)) }
{
    if ends_rise(ranges) {
        return Ok(true);
    }
    let mut sorted = Vec::from_slice(alloc, ranges)?;
    put_in_order(&mut sorted);
    Ok(ends_rise(&sorted))
}

/// The place of the first range that shares a byte with one before it, by halving: ranges are apart up to some place, and from then on they are not.
pub(crate) fn first_overlap(alloc: Global, ranges: &[Range]) -> Result<Option<usize>, AllocError>
    requires { AllByRecursion (λ (r : TheRange). 0 < r.len) ranges.now }
    ensures { IfOk result (λ found. MatchOption found (AreApart ranges.now)
        (λ i. (i < length ranges.now) × AreApart (take i ranges.now) × Meet (take (i + 1) ranges.now))) }
{
    if are_apart(alloc, ranges)? {
        return Ok(None);
    }
    let mut apart = 0;
    let mut meet = ranges.len();
    while meet - apart > 1 {
        let middle = apart + (meet - apart) / 2;
        if are_apart(alloc, &ranges[..middle])? {
            apart = middle;
        } else {
            meet = middle;
        }
    }
    Ok(Some(apart))
}

/// The bytes that a dump gives, by their addresses. A read finds each byte by halving, and the device never fails.
#[derive(Drop)]
pub struct DumpMemory {
    ranges: Vec<Range>,
    bytes: Vec<u8>,
}

impl Model for DumpMemory {
    ghost use Rattle.dw_dump.specs.{Ranges.Held, Inner.Ranges.IsOrdered};

    ghost Value = { Held };

    ghost view = { λ m. record { ranges = m.ranges.items; bytes = m.bytes.items } };

    ghost invariant = { λ m. IsOrdered (record { ranges = m.ranges.items; bytes = m.bytes.items }) };
}

// The byte at an address, in the last range that begins at or below it.
fn byte_at(ranges: &[Range], bytes: &[u8], address: u64) -> Option<u8>
    requires rise { Rise ranges.now }
    requires within { AllByRecursion (IsSoundRange (2 ^ 64) (length bytes.now)) ranges.now }
    ensures { result ≡ byte_among bytes.now address ranges.now }
{
    let begun = ranges.partition_point(|range| range.address <= address);
    if begun == 0 {
        return None;
    }
    let range = ranges[begun - 1];
    let offset = address - range.address;
    if offset < range.len as u64 {
        Some(bytes[range.place + offset as usize])
    } else {
        None
    }
}

// Fills a buffer with the bytes from an address on, unless one of them is missing.
fn fill(ranges: &[Range], bytes: &[u8], address: u64, buffer: &mut [u8]) -> bool
    requires rise { Rise ranges.now }
    requires within { AllByRecursion (IsSoundRange (2 ^ 64) (length bytes.now)) ranges.now }
    ensures { MatchBool result
        (bytes_from (λ a. byte_among bytes.now a ranges.now) address (length buffer.old) ≡ Some buffer.new)
        (bytes_from (λ a. byte_among bytes.now a ranges.now) address (length buffer.old) ≡ None) }
{
    for (i, slot) in buffer.iter_mut().enumerate() {
        let Some(place) = address.checked_add(i as u64) else {
            return false;
        };
        let Some(byte) = byte_at(ranges, bytes, place) else {
            return false;
        };
        *slot = byte;
    }
    true
}

impl DumpMemory {
    /// The memory of ranges that are apart.
    pub(crate) fn new(mut ranges: Vec<Range>, bytes: Vec<u8>) -> DumpMemory
        requires apart { AreApart ranges.items }
        requires within { AllByRecursion (IsSoundRange (2 ^ 64) (length bytes.items)) ranges.items }
        ensures { (a : ℕ) → byte_in result a ≡ byte_among bytes.items a ranges.items }
    {
        put_in_order(&mut ranges);
        DumpMemory { ranges, bytes }
    }
}

impl Memory for DumpMemory {
    ghost byte = { byte_in };

    ghost failures = { λ _. 0 };

    #[tactic(auto, unfolding(dw_eval::specs::Bytes::number_in_memory))]
    fn read(&mut self, address: u64, len: usize, order: Order) -> Result<u64, ReadFault> {
        let mut buffer = [0; 8];
        let spelled = &mut buffer[..len];
        if !fill(&self.ranges, &self.bytes, address, spelled) {
            return Err(ReadFault::Unreadable);
        }
        Ok(number_of(order, spelled))
    }
}
