//! FDEs with the addresses that they cover (6.4.1): their order, and the first two that share an address.

ghost use Rattle.std.specs.Prelude.{◌≡◌, true, List, map, IsPermutation, MatchOption, OnErr, OnOk, length};
ghost use Rattle.dw_num.specs.declared.refusal.Code.TheVariants.{Overlap};
ghost use Rattle.dw_index.specs.{Ranges.{AreApart, Ascends, FirstOverlap, StandInOrder, range_in}, Inner.Index.BeginsRise};

use std::alloc::AllocError;

/// A nonempty FDE as an index lists it: its first address (`initial_location`), how many addresses it covers
/// (`address_range`), the place of its entry, and the return address register of its CIE. 24 bytes, as C lays them out.
#[repr(C)]
#[derive(Clone, Copy, Debug, PartialEq, Eq)]
pub struct Ranged {
    /// `initial_location` (6.4.1).
    pub begin: u64,
    /// `address_range`.
    pub range: u64,
    /// The place of the FDE's `length` in the section.
    pub at: u32,
    /// `return_address_register` of the CIE that `CIE_pointer` names.
    pub return_register: u16,
}

// Whether each begins behind the begin of the one before it.
fn begins_rise(list: &[Ranged]) -> bool
    ensures { result ≡ true → BeginsRise (length list.now) list.now }
{
    for i in 1..list.len() {
        if list[i].begin <= list[i - 1].begin {
            return false;
        }
    }
    true
}

/// Puts FDEs that are listed by place in the order of their begins, those of one begin by place. Where memory runs out they stay.
pub fn put_in_order(list: &mut Vec<Ranged>) -> Result<(), AllocError>
    requires { StandInOrder list.old.items }
    ensures permutes { OnOk result (IsPermutation list.old.items list.new.items) }
    ensures ascends { OnOk result (Ascends (map range_in list.new.items)) }
    ensures stays { OnErr result (list.new.items ≡ list.old.items) }
{
    if !begins_rise(list) {
        list.sort_by_key(|fde| fde.begin)?;
    }
    Ok(())
}

/// The place of the first FDE in that order that begins below the end of one before it.
pub fn first_overlap(list: &[Ranged]) -> Option<u64>
    ensures { MatchOption result (AreApart (map range_in list.now)) (λ at. FirstOverlap (map range_in list.now) (record { code = Overlap; at = at })) }
{
    let mut greatest: u128 = 0;
    for fde in list {
        let begin = u128::from(fde.begin);
        if begin < greatest {
            return Some(u64::from(fde.at));
        }
        greatest = begin + u128::from(fde.range);
    }
    None
}
