//! Unwinding of one frame (6.4.1): `unwind` answers the caller's frame by the rules at an address, or the first fault. Read `specs/Unwound.antt` first.
#![tactic(auto)]

mod by_index;
mod laws;

pub use by_index::{UnwindAtError, unwind, unwind_at};
pub use dw_dump::{Dump, DumpCode, DumpError, DumpFault, DumpMemory};
pub use dw_eval::Policy;
pub use dw_frame::{Column, Frame, FrameRegisters, FrameRoom, UnwindError, unwind_row};
pub use laws::unwind_laws;
