//! Evaluation of DWARF expressions (2.5) and location descriptions (2.6), over registers and a memory whose device may fail.
//!
//! An expression has exactly one value or fault, and a description one list of pieces or fault: these are answered, or want of memory; `Device` exactly
//! where the memory's count of failures grew. Read `specs/Effect.antt` first, the table of operations, and `specs/Runs.antt`, which says what a run answers.
#![tactic(auto)]

mod action;
mod arithmetic;
mod description;
mod env;
mod error;
mod evaluation;
mod laws;
mod memory;
mod place;
mod policy;
mod registers;
mod stack;

pub use action::is_in_space;
pub use arithmetic::{offset_by, reduced};
pub use description::locate;
pub use env::Env;
pub use error::{EvalError, Kind};
pub use evaluation::evaluate;
pub use laws::evaluation_laws;
pub use memory::{Memory, ReadFault};
pub use place::{Part, Piece, Place};
pub use policy::Policy;
pub use registers::Registers;
