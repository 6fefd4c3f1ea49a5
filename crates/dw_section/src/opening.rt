//! How long the programs of an FDE are, and how its own begins.

ghost use Rattle.std.specs.{Option.IsSome, Prelude.{◌≡◌, ◌<◌, List, length, slice_index_or, IfSome}};
ghost use Rattle.dw_section.specs.{Meaning.{AreFdes, HasLengths}, Opening.OpensBehind, Inner.Opening.row_behind, declared.lookup.Fde.{Fde as TheFde}};
ghost use Rattle.dw_section.specs.declared.opening.CieRow.{CieRow as TheRow};

use crate::lookup::FdeRef;
use crate::table::Table;
use dw_cfa::{FirstRow, first_row};

/// A row (6.4.1) that FDEs of one CIE begin with: the one that the program of the CIE (`initial_instructions`) leaves, or that
/// with another offset of the CFA (6.4.2.2).
#[derive(Clone, Copy, PartialEq, Eq)]
pub struct CieRow {
    /// The place of the CIE in the section, which is `CIE_pointer` of those FDEs (6.4.1).
    pub cie_at: u64,
    /// The offset of the CFA that the programs of the FDEs give by `DW_CFA_def_cfa_offset` or `DW_CFA_def_cfa_offset_sf`
    /// (6.4.2.2), or none where the CFA's rule is the one of the CIE's row.
    pub cfa_offset: Option<i64>,
}

/// How long the program of an FDE (6.4.3) and that of its CIE are, and how its own begins.
#[derive(Clone, Copy)]
pub struct Opening {
    /// How many bytes `instructions` of the FDE (6.4.1, 6.4.2) has, with the padding.
    pub own: usize,
    /// How many bytes `initial_instructions` of its CIE (6.4.1) has, with the padding.
    pub initial: usize,
    /// The row at its begin, `initial_location` (6.4.1), where the first instructions of its own program tell it (`first_row` of `dw_cfa`).
    pub row: Option<CieRow>,
}

// The row that such a program begins with, behind the CIE at this place.
#[inline(always)]
fn row_behind(cie_at: u64, first: FirstRow) -> Option<CieRow>
    ensures { result ≡ row_behind cie_at first }
{
    let cfa_offset = match first {
        FirstRow::Initial => None,
        FirstRow::CfaOffset(offset) => Some(offset),
        FirstRow::Other => return None,
    };
    Some(CieRow { cie_at, cfa_offset })
}

impl<'a> Table<'a> {
    /// How long the program of an FDE and that of its CIE are, and how its own begins: its fields are read once. Takes no memory.
    #[inline(always)]
    pub fn opening(&self, fde: FdeRef) -> Opening
        requires { (fs : List TheFde) → AreFdes self.now.target self.now.bytes fs → fde.place < length fs }
        ensures lengths { (fs : List TheFde) → AreFdes self.now.target self.now.bytes fs → (d : TheFde)
            → HasLengths self.now.target self.now.bytes (slice_index_or fs fde.place d) result.own result.initial }
        ensures opens { (fs : List TheFde) → AreFdes self.now.target self.now.bytes fs → (d : TheFde)
            → IfSome result.row (OpensBehind self.now.target self.now.bytes (slice_index_or fs fde.place d)) }
        ensures only { (fs : List TheFde) → AreFdes self.now.target self.now.bytes fs → (d : TheFde) (row : TheRow)
            → OpensBehind self.now.target self.now.bytes (slice_index_or fs fde.place d) row → IsSome result.row }
    {
        self.accepted();
        let found = self.found(fde);
        let first = first_row(found.own.program, found.cie.factors, self.target);
        Opening {
            own: found.own.program.bytes.len(),
            initial: found.cie.program.bytes.len(),
            row: row_behind(found.own.cie_at, first),
        }
    }
}
