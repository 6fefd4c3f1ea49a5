//! What the words of a command line ask for.
//!
//! `plan` reads them as `clap` does, and judges the values. Read `specs/CommandLine.antt` for the command line that is read,
//! `specs/Values.antt` of `dw_values` and of this crate for what a value may be, and `specs/Plan.antt` for what the words then ask for.
#![tactic(auto)]

mod command_line;
mod command_words;
mod help;
mod request;

pub use command_words::plan;
pub use dw_values::address;
pub use request::{Evaluation, Job, Lookup, Name, PlanError, Request, Task, Unwinding, Writing};
