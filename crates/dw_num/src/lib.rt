//! Numbers as DWARF spells them, read from a slice and written to a vector: LEB128 numbers (7.6), numbers of a fixed width and unit
//! lengths (7.4, 7.5), with the types that every layer above shares.
//!
//! A read answers a number exactly where a beginning of what is left spells it, and takes that spelling; otherwise it names the fault and its place, and
//! takes nothing. A write appends the one shortest spelling. Read `specs/Leb.antt` and `specs/Fixed.antt` first: they say what a spelling is.
#![tactic(auto)]

mod cursor;
mod error;
mod laws;
mod leb;
mod length;
mod program;
mod refusal;
mod target;
mod write;

pub use cursor::{Cursor, are_bytes, number_of, word_in};
pub use error::ReadError;
pub use laws::number_laws;
pub use length::{sleb_len, uleb_len};
pub use program::Program;
pub use refusal::{Code, Refusal};
pub use target::{Form, Order, Size, Target, UnitLength};
pub use write::{put_fixed, put_sleb, put_uleb};
