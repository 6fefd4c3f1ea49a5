//! What the normal form of call frame information is, and what holds of it. The functions do nothing: their contracts are proved.
//!
//! Read `specs/Headline.antt` first, then `specs/Members.antt` and `specs/Canon.antt`.
#![tactic(auto)]

mod laws;
mod sink;

pub use laws::{headline, length_law, normal_laws};
pub use sink::{Sink, SinkFault};
