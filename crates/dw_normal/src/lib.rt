//! The normal form of call frame information, and whether two sections say the same (6.4). What it is says `dw_canon`.
#![tactic(auto)]

mod apart;
mod begun;
mod contents;
mod entry;
mod error;
mod groups;
mod instruction;
mod known;
mod likeness;
mod normal;
mod output;
mod preparation;
mod program;
mod sink;

pub use dw_canon::{Sink, SinkFault};
pub use error::{SameError, Which, WriteError};
pub use normal::{normal_length, normalise, normalise_to, same};
pub use sink::{Tape, Through};
