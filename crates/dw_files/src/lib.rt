//! Files and outputs of the system.
#![tactic(auto)]

mod files;
mod hints;
mod outputs;

pub use files::{Disk, LIMIT, Load, LoadError, STDIN};
pub use hints::{Explained, Hinted};
pub use outputs::{Piped, Shown};
