//! Call frame instructions, and the machine that runs them (6.4.2, 6.4.3).
#![tactic(auto)]

mod common;
mod coverage;
mod execution;
mod instr;
mod instructions;
mod keep;
mod laws;
mod lead;
mod look_up;
mod machine;
mod next_row;
mod opcode;
mod opening;
mod rare;
mod room;
mod row_walk;
mod rows;
mod steps;
mod turn;

pub use dw_row::{CfaRule, RegRule, Row};
pub use execution::LocatedRow;
pub use instr::{Factors, Instr};
pub use instructions::Instructions;
pub use laws::row_laws;
pub use lead::become_initial;
pub use opening::{FirstRow, first_row};
pub use room::RowRoom;
pub use row_walk::RowWalk;
pub use rows::{Rows, run};
pub use steps::RowSteps;
