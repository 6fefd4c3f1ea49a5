//! Why a run ends without its answer.

ghost use Rattle.std.specs.Prelude.{◌≡◌, ◌≤◌};
ghost use Rattle.dw_show.specs.{Failure.{OfUnwind, of_read, of_dump, of_eval, of_plan, status_of}, declared.failure.Failure.TheVariants.OutOfMemory};

use dw_eval::{EvalError, Kind};
use dw_num::{ReadError, Refusal};
use dw_unwind::{Column, DumpError, DumpFault, UnwindError};
use dw_words::PlanError;
use std::alloc::AllocError;
use std::fmt;
use thiserror::Error;

/// Why a run ends without its answer. Its text is the line that the command prints, also for `{:?}`.
#[derive(Drop, Error)]
pub enum Failure<'a> {
    /// A section or a block is refused, or a normal form passes its cap.
    #[error("refused: {} at {:#x}", .0.code, .0.at)]
    Refused(Refusal),
    /// What is wrong with one of two sections, and with which.
    #[error("refused: {} at {:#x} in {}", .0.code, .0.at, .1)]
    RefusedIn(Refusal, &'static str),
    /// A dump is refused.
    #[error("refused: {} at line {}", .0.code, .0.line)]
    Dump(DumpFault),
    /// What an expression ends with, and the operation's index.
    #[error("fault: {0} at {1}")]
    Evaluation(Kind, usize),
    /// What an expression of a column ends with, and the operation's index.
    #[error("fault: {0} at {1} in {2}")]
    Value(Kind, usize, Column),
    /// What is wrong in a column.
    #[error("fault: {0} in {1}")]
    Column(&'static str, Column),
    /// No FDE covers the dump's pc.
    #[error("fault: NoFde")]
    NoFde,
    /// The dump gives no pc.
    #[error("fault: NoPc")]
    NoCounter,
    /// The value of an option or operand, by its name, is none that it may have.
    #[error("bad value for {0}")]
    BadValue(&'static str),
    /// The file of this path cannot be read.
    #[error("cannot read {0}")]
    CannotRead(&'a str),
    /// The output failed.
    #[error("cannot write")]
    CannotWrite,
    /// A request for memory was refused.
    #[error("out of memory")]
    OutOfMemory,
    /// What is wrong with the words: a text of several lines, which ends the last of them.
    #[error("{0}")]
    Words(clap::Error),
}

impl fmt::Debug for Failure<'_> {
    fn fmt<W: fmt::Write>(&self, f: &mut fmt::Formatter<W>) -> fmt::Result {
        fmt::Display::fmt(self, f)
    }
}

impl From<AllocError> for Failure<'_> {
    ghost from_gives = { λ _ e. e ≡ OutOfMemory };

    fn from(_error: AllocError) -> Self {
        Failure::OutOfMemory
    }
}

impl From<PlanError> for Failure<'_> {
    ghost from_gives = { λ error e. e ≡ of_plan error };

    fn from(error: PlanError) -> Self {
        match error {
            PlanError::BadValue(name) => Failure::BadValue(name),
            PlanError::Words(error) => Failure::Words(error),
            PlanError::OutOfMemory => Failure::OutOfMemory,
        }
    }
}

impl From<ReadError> for Failure<'_> {
    ghost from_gives = { λ error e. e ≡ of_read error };

    fn from(error: ReadError) -> Self {
        match error {
            ReadError::Refused(refusal) => Failure::Refused(refusal),
            ReadError::OutOfMemory => Failure::OutOfMemory,
        }
    }
}

impl From<DumpError> for Failure<'_> {
    ghost from_gives = { λ error e. e ≡ of_dump error };

    fn from(error: DumpError) -> Self {
        match error {
            DumpError::Fault(fault) => Failure::Dump(fault),
            DumpError::OutOfMemory => Failure::OutOfMemory,
        }
    }
}

impl From<EvalError> for Failure<'_> {
    ghost from_gives = { λ error e. e ≡ of_eval error };

    fn from(error: EvalError) -> Self {
        match error {
            EvalError::Fault { kind, index } => Failure::Evaluation(kind, index),
            EvalError::OutOfMemory => Failure::OutOfMemory,
        }
    }
}

impl From<UnwindError> for Failure<'_> {
    ghost from_gives = { OfUnwind };

    fn from(error: UnwindError) -> Self {
        match error {
            UnwindError::NoFde => Failure::NoFde,
            UnwindError::Eval {
                kind,
                index,
                column,
            } => Failure::Value(kind, index, column),
            UnwindError::Unreadable { column, .. } => Failure::Column("Unreadable", column),
            UnwindError::Device { column } => Failure::Column("Device", column),
            UnwindError::NoRegister { column, .. } => Failure::Column("NoRegister", column),
            UnwindError::OutOfMemory => Failure::OutOfMemory,
        }
    }
}

impl Failure<'_> {
    /// The exit status, 2 to 5.
    pub fn status(&self) -> u8
        ensures exact { result ≡ status_of self.now }
        ensures within { (2 ≤ result) × (result ≤ 5) }
    {
        match self {
            Failure::BadValue(_) | Failure::Words(_) => 3,
            Failure::CannotRead(_) | Failure::CannotWrite => 4,
            Failure::OutOfMemory => 5,
            _ => 2,
        }
    }
}
