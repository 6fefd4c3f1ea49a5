//! Sections of call frame information (6.4.1): their entries, the fields of each, and what a whole section says.
//!
//! Every answer is exact: a list or a table where the section has one, else the first fault by stages and places. The stages are the size, the cut,
//! the fields of CIEs and of FDEs, the programs of CIEs and of FDEs, a CFA rule at each covered address, and ranges that are apart. Read
//! `specs/Cut.antt` first, which says what a division of a section is, then `specs/Headers.antt`, `specs/Accepted.antt`, and `specs/Meaning.antt`.
#![tactic(auto)]

mod change;
mod entry;
mod fde_range;
mod fields;
mod header;
mod indexed_changes;
mod laws;
mod listed_fde;
mod lookup;
mod opening;
mod standing_fde;
mod table;
mod walks;

pub use change::{Behind, Changes};
pub use dw_index::Ranged;
pub use entry::{Entry, EntryCounts, Kind, entries};
pub use header::{Header, headers};
pub use indexed_changes::IndexedChanges;
pub use laws::{fault_laws, section_laws};
pub use lookup::{Fde, FdeRef, Fdes};
pub use opening::{CieRow, Opening};
pub use standing_fde::{IndexedFde, LookUpError, fde_by_index, look_up};
pub use table::{Table, check};
