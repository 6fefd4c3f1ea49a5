//! The subcommands that show what a section, an expression or a frame says, and what they are printed with. `specs/Answers.antt` says what they answer and
//! print. Those that need the normal form of a section are in `dw_command`.
#![tactic(auto, using(crate::proofs::Lent::Endings::on, crate::proofs::Puts::kept_on, crate::proofs::Puts::on_kept, crate::proofs::Lent::Endings::printed))]

mod expression;
mod failure;
mod files;
mod listing;
mod rows;
mod section;
mod texts;
mod unwind;

pub use expression::{run_eval, run_expr};
pub use failure::Failure;
pub use files::load_file;
pub use listing::{Listing, put_help};
pub use rows::{run_at, run_rows};
pub use section::{count_changes_of, put_pair, put_verdict, run_check, run_entries};
pub use unwind::run_unwind;
