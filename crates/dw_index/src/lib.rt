//! An index of call frame information: the FDEs that cover addresses, by the first of these (6.4.1).
#![tactic(auto)]

mod ranged;

pub use ranged::{Ranged, first_overlap, put_in_order};
