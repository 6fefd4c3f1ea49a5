//! Operations of DWARF expressions, and the blocks that spell them.
#![tactic(auto)]

mod block;
mod equality;
mod expression;
mod laws;
mod least;
mod least_block;
mod list;
mod op;
mod operation;
mod profile;
mod walk;

pub use block::{decode, one_answer};
pub use expression::{ExprRef, OpSteps};
pub use laws::block_laws;
pub use least_block::{EncodeError, encode};
pub use list::{BadOperand, OpList};
pub use op::Op;
pub use profile::Profile;
