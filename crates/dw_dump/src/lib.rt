//! Register dumps: the values of a stopped machine, read from a text. Read `specs/Dump.antt` first.
#![tactic(auto)]

mod dump;
mod fault;
mod line;
mod memory;

pub use dump::{Dump, dump_laws};
pub use fault::{DumpCode, DumpError, DumpFault};
pub use memory::DumpMemory;
