//! Rows of rules, one kept beside another, and those that are remembered (6.4.1, 6.4.2.4).
#![tactic(auto)]

mod among;
mod behind;
mod change_list;
mod debug;
mod entries;
mod equality;
mod in_common;
mod kept_row;
mod masked;
mod near_slots;
mod register_set;
mod row;
mod rule;
mod slot;
mod states;
mod tree;

pub use entries::NEAR;
pub use near_slots::is_in;
pub use register_set::RegisterSet;
pub use row::{Row, Specified};
pub use rule::{CfaRule, RegRule};
pub use states::States;
