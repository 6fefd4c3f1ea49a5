//! The registers behind another one, where those are gone over one at a time.

ghost use Rattle.std.specs.Prelude.{◌≡◌};
ghost use Rattle.dw_row.specs.{Difference.place_behind, Inner.Difference.start_behind};

use std::ops::Bound;

/// The least register behind another one, or the first of all.
#[inline(always)]
pub(crate) fn place_behind(behind: Option<u16>) -> u32
    ensures { result ≡ place_behind behind }
{
    match behind {
        Some(register) => u32::from(register) + 1,
        None => 0,
    }
}

/// The start of the part of a tree behind a register, or of all of it.
pub(crate) fn start_behind(behind: Option<u16>) -> Bound<u16>
    ensures { result ≡ start_behind behind }
{
    match behind {
        Some(register) => Bound::Excluded(register),
        None => Bound::Unbounded,
    }
}
