//! What the texts of options and operands say.
#![tactic(auto)]

mod values;

pub use values::{address, decimal, order_named, size_named};
