//! Why a call that reads has no answer.

ghost use Rattle.std.specs.Prelude.{◌≡◌};
ghost use Rattle.dw_num.specs.declared.error.ReadError.TheVariants.{OutOfMemory, Refused};

use crate::refusal::Refusal;
use std::alloc::{AllocError, AllocFailed};
use thiserror::Error;

/// Why a block, a program or a section has no answer.
#[derive(Clone, Copy, Debug, PartialEq, Eq, Error)]
pub enum ReadError {
    /// The first fault, and its place.
    #[error("{0}")]
    Refused(Refusal),
    /// A request for memory was refused.
    #[error("out of memory")]
    OutOfMemory,
}

impl From<Refusal> for ReadError {
    ghost from_gives = { λ r e. e ≡ Refused r };

    fn from(refusal: Refusal) -> ReadError {
        ReadError::Refused(refusal)
    }
}

impl From<AllocError> for ReadError {
    ghost from_gives = { λ _ e. e ≡ OutOfMemory };

    fn from(_error: AllocError) -> ReadError {
        ReadError::OutOfMemory
    }
}

impl<T: Drop> From<AllocFailed<T>> for ReadError {
    ghost from_gives = { λ _ e. e ≡ OutOfMemory };

    fn from(_error: AllocFailed<T>) -> ReadError {
        ReadError::OutOfMemory
    }
}
