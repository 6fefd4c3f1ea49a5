//! The caller's frame by the rules of a row (6.4.1): `unwind_row` answers it, or the first fault. Read `specs/Frames.antt` first.
#![tactic(auto)]

mod frame;
mod frame_room;
mod laws;
mod machine;

pub use frame::{Column, Frame, UnwindError};
pub use frame_room::{FrameRegisters, FrameRoom};
pub use laws::frame_laws;
pub use machine::unwind_row;
