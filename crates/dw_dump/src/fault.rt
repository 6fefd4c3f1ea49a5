//! Why a dump is refused, and where.

ghost use Rattle.std.specs.Prelude.{◌≡◌};
ghost use Rattle.dw_dump.specs.{Codes.code_entry, declared.fault.DumpError.TheVariants.OutOfMemory};

use std::alloc::{AllocError, AllocFailed};
use std::fmt;
use thiserror::Error;

/// What is wrong with a line of a dump. A line is judged in this order.
#[derive(Clone, Copy, Debug, PartialEq, Eq)]
pub enum DumpCode {
    /// The line has none of the forms of a dump.
    BadLine,
    /// A number of 2^N or more, or memory that passes 2^N.
    ValueTooLarge,
    /// A second program counter, a second value of a register, or a byte of memory given twice.
    Repeated,
}

impl DumpCode {
    /// The fault's number, 1 to 3.
    pub fn number(self) -> u8
        ensures { result ≡ (code_entry self).0 }
    {
        match self {
            DumpCode::BadLine => 1,
            DumpCode::ValueTooLarge => 2,
            DumpCode::Repeated => 3,
        }
    }

    /// The fault's name, as the variant is written.
    pub fn name(self) -> &'static str
        ensures { result.now ≡ (code_entry self).1 }
    {
        match self {
            DumpCode::BadLine => "BadLine",
            DumpCode::ValueTooLarge => "ValueTooLarge",
            DumpCode::Repeated => "Repeated",
        }
    }
}

impl fmt::Display for DumpCode {
    fn fmt<W: fmt::Write>(&self, f: &mut fmt::Formatter<W>) -> fmt::Result {
        write!(f, "{}", self.name())
    }
}

/// A fault, and the line that it is found at, counted from 1.
#[derive(Clone, Copy, Debug, PartialEq, Eq, Error)]
#[error("{code} at line {line}")]
pub struct DumpFault {
    /// What is wrong.
    pub code: DumpCode,
    /// The line, counted from 1.
    pub line: u64,
}

/// Why there is no dump.
#[derive(Clone, Copy, Debug, PartialEq, Eq, Error)]
pub enum DumpError {
    /// The first fault of the text.
    #[error("{0}")]
    Fault(DumpFault),
    /// A request for memory was refused.
    #[error("out of memory")]
    OutOfMemory,
}

impl From<AllocError> for DumpError {
    ghost from_gives = { λ _ e. e ≡ OutOfMemory };

    fn from(_e: AllocError) -> DumpError {
        DumpError::OutOfMemory
    }
}

impl<T: Drop> From<AllocFailed<T>> for DumpError {
    ghost from_gives = { λ _ e. e ≡ OutOfMemory };

    fn from(_e: AllocFailed<T>) -> DumpError {
        DumpError::OutOfMemory
    }
}
