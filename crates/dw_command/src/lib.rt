//! The command over words, files and outputs that it is given.
//!
//! `engine` (`command.rt`) is the whole command; `dwframe` runs it over the real ones. `plan` (`dw_words`) is what it makes of the words before any file
//! is read; then read the file of a subcommand, most in `dw_show`. `specs/Engine.antt` says what a run does to its output, `specs/Answers.antt` its answers.
#![tactic(auto)]

mod command;
mod forms;
mod lent;

pub use command::engine;
pub use dw_files::{Disk, Hinted, Load, LoadError, Shown};
pub use dw_show::Failure;
pub use dw_words::{
    Evaluation, Job, Lookup, Name, PlanError, Request, Task, Unwinding, Writing, plan,
};
