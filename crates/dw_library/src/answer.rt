//! What calls answer: statuses, refusals and counts, as `include/dwframe.h` declares them.

ghost use Rattle.std.specs.Prelude.{◌≡◌, ◌<◌, ◌≤◌, length, slice_set};
ghost use Rattle.dw_library.specs.Answers.{AreAtFront, target_of, told, refused as the_refused};

use crate::names::Status;
use dw_num::{Order, Refusal, Size, Target};

/// A section, and how its numbers are read.
#[repr(C)]
#[derive(Clone, Copy)]
pub struct Section<'a> {
    /// Its bytes.
    pub bytes: &'a [u8],
    /// The size of an address, 4 or 8, as `address_size` of a CIE (6.4.1).
    pub address_size: u32,
    /// 0 for little-endian and 1 for big-endian.
    pub byte_order: u32,
}

/// Why a section is refused: the number of the code, which section (1, or 2 for the second of two), and the place of the
/// first bad byte. All are 0 where none is refused.
#[repr(C)]
#[derive(Clone, Copy, Default)]
pub struct Refused {
    /// The number of the code, 1 to 27.
    pub code: u32,
    /// Which section: 1, or 2 for the second of two.
    pub section: u32,
    /// The place of the first bad byte.
    pub at: usize,
}

/// How many CIEs and FDEs a section has.
#[repr(C)]
#[derive(Clone, Copy, Default)]
pub struct Counts {
    /// Common information entries, whose `CIE_id` is all ones (6.4.1).
    pub cies: usize,
    /// Frame description entries, each with a `CIE_pointer`.
    pub fdes: usize,
}

/// The status of a section that is refused, and its refusal.
pub(crate) fn refuse(refused: &mut Refused, section: u32, refusal: Refusal) -> u32
    ensures status { result ≡ the_refused }
    ensures told { refused.new ≡ told section refusal }
{
    *refused = Refused {
        code: u32::from(refusal.code.number()),
        section,
        at: refusal.at as usize,
    };
    Status::Refused as u32
}

/// The machine with this address size, 4 or 8, and this byte order, 0 for little-endian and 1 for big-endian.
pub(crate) fn target_of(address_size: u32, byte_order: u32) -> Option<Target>
    ensures { result ≡ target_of address_size byte_order }
{
    let (size, order) = match (address_size, byte_order) {
        (4, 0) => (Size::Four, Order::Little),
        (4, 1) => (Size::Four, Order::Big),
        (8, 0) => (Size::Eight, Order::Little),
        (8, 1) => (Size::Eight, Order::Big),
        _ => return None,
    };
    Some(Target { size, order })
}

/// Writes items to the front of a buffer, where they fit.
pub(crate) fn put_front<T: Copy>(items: &[T], out: &mut [T]) -> u32
    ensures { AreAtFront items.now out.old result out.new }
{
    if out.len() < items.len() {
        return Status::TooShort as u32;
    }
    out[..items.len()].copy_from_slice(items);
    Status::Ok as u32
}

/// Writes an item to its place in a buffer, where it has one.
#[inline(always)]
pub(crate) fn put_at<T: Copy>(item: T, out: &mut [T], place: usize)
    ensures inside { place < length out.old → out.new ≡ slice_set out.old place item }
    ensures outside { length out.old ≤ place → out.new ≡ out.old }
{
    if place < out.len() {
        out[place] = item;
    }
}
