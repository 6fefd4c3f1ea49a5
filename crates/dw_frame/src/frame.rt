//! One frame: what the rules at an address give for a machine that stopped there.

ghost use Rattle.std.specs.Prelude.{◌≡◌};
ghost use Rattle.dw_frame.specs.{Codes.frame_fault, declared.frame.UnwindError.TheVariants.OutOfMemory};

use crate::frame_room::FrameRegisters;
use dw_eval::Kind;
use std::alloc::AllocError;
use std::fmt;
use thiserror::Error;

/// A column of a row of the table of 6.4.1: the canonical frame address, or a register.
#[derive(Clone, Copy, Debug, PartialEq, Eq)]
pub enum Column {
    /// The canonical frame address.
    Cfa,
    /// A register by its DWARF number.
    Register(u16),
}

impl fmt::Display for Column {
    fn fmt<W: fmt::Write>(&self, f: &mut fmt::Formatter<W>) -> fmt::Result {
        match self {
            Column::Cfa => write!(f, "cfa"),
            Column::Register(register) => write!(f, "r{register}"),
        }
    }
}

/// The caller's frame: the canonical frame address, the number of the register that holds the return address, and
/// the registers that the machine gave, that the row specifies, or that holds the return address.
#[derive(Debug, Drop)]
pub struct Frame<'r> {
    /// The canonical frame address (CFA).
    pub cfa: u64,
    /// `return_address_register` of the CIE: the column whose value is the caller's program counter.
    pub return_register: u16,
    /// The caller's registers, ascending.
    pub registers: FrameRegisters<'r>,
}

/// Why there is no frame of the caller (6.4, 6.4.3), and the column of the row (6.4.1) that it comes from.
#[derive(Clone, Copy, Debug, PartialEq, Eq, Error)]
pub enum UnwindError {
    /// No FDE covers the address. One covers those from its `initial_location` on, below that plus its `address_range` (6.4.1).
    #[error("NoFde")]
    NoFde,
    /// An expression (2.5) has no value: its fault, and the operation's index. The rule that has it was set by
    /// `DW_CFA_def_cfa_expression` (6.4.2.2), `DW_CFA_expression` or `DW_CFA_val_expression` (6.4.2.3).
    #[error("{kind} at operation {index} in {column}")]
    Eval {
        /// What is wrong with the expression (2.5).
        kind: Kind,
        /// The index of the operation (2.5.1) that it comes from, counted from 0, or how many there are for a fault at the end.
        index: usize,
        /// The column (6.4.1) whose rule has the expression.
        column: Column,
    },
    /// A byte of a saved register is missing, or its bytes pass 2^N. The register's rule is `offset(N)` (`DW_CFA_offset`,
    /// `DW_CFA_offset_extended`, `DW_CFA_offset_extended_sf`) or `expression(E)` (`DW_CFA_expression`), 6.4.1, 6.4.2.3.
    #[error("Unreadable in {column}")]
    Unreadable {
        /// The column (6.4.1) of the saved register.
        column: Column,
        /// The first address that was read.
        address: u64,
        /// How many bytes from there on were asked for.
        len: usize,
    },
    /// The memory's device failed while a saved register was read, whose rule is `offset(N)` (`DW_CFA_offset`,
    /// `DW_CFA_offset_extended`, `DW_CFA_offset_extended_sf`) or `expression(E)` (`DW_CFA_expression`), 6.4.1, 6.4.2.3.
    #[error("Device in {column}")]
    Device {
        /// The column (6.4.1) of the saved register.
        column: Column,
    },
    /// A register that is asked for holds nothing: that of the CFA's rule (`DW_CFA_def_cfa`, `DW_CFA_def_cfa_sf`,
    /// `DW_CFA_def_cfa_register`, 6.4.2.2), or the one that a rule `register(R)` names (`DW_CFA_register`, 6.4.2.3).
    #[error("NoRegister in {column}")]
    NoRegister {
        /// The column (6.4.1) whose rule asks for it.
        column: Column,
        /// Its DWARF number.
        register: u16,
    },
    /// A request for memory was refused.
    #[error("out of memory")]
    OutOfMemory,
}

impl UnwindError {
    /// The fault's number, 1 to 5, or None for want of memory, which is no fault.
    pub fn number(self) -> Option<u8>
        ensures { result ≡ frame_fault self }
    {
        match self {
            UnwindError::NoFde => Some(1),
            UnwindError::Eval { .. } => Some(2),
            UnwindError::Unreadable { .. } => Some(3),
            UnwindError::Device { .. } => Some(4),
            UnwindError::NoRegister { .. } => Some(5),
            UnwindError::OutOfMemory => None,
        }
    }
}

impl From<AllocError> for UnwindError {
    ghost from_gives = { λ _ e. e ≡ OutOfMemory };

    fn from(_e: AllocError) -> UnwindError {
        UnwindError::OutOfMemory
    }
}
