//! Why an evaluation has no answer.

ghost use Rattle.std.specs.Prelude.{◌≡◌};
ghost use Rattle.dw_eval.specs.{Kinds.kind_entry, declared.error.EvalError.TheVariants.Fault};

use std::fmt;
use thiserror::Error;

/// What is wrong.
#[derive(Clone, Copy, Debug, PartialEq, Eq)]
pub enum Kind {
    /// The stack has fewer entries than the operation names.
    StackUnderflow,
    /// The divisor of a `DW_OP_div` or a `DW_OP_mod` is 0.
    DivideByZero,
    /// A register that `DW_OP_breg0` to `DW_OP_bregx` name holds nothing.
    NoRegister {
        /// The register's number.
        register: u16,
    },
    /// A byte of memory is missing, or the bytes pass 2^N, where an address has N bits.
    Unreadable {
        /// The first address that was read.
        address: u64,
        /// How many bytes from there on were asked for.
        len: usize,
    },
    /// The memory's device failed.
    Device,
    /// As many steps as the limit were taken, and the end is not reached.
    StepLimit,
    /// The stack is empty at the end.
    EmptyResult,
    /// The operation makes a place, as `DW_OP_reg0` or `DW_OP_piece`, where a value is asked for.
    NotAValue,
    /// The frame base, which `DW_OP_fbreg` asks for, is not known.
    NoFrameBase,
    /// The canonical frame address, which `DW_OP_call_frame_cfa` asks for, is not known.
    NoCfa,
    /// The object's address, which `DW_OP_push_object_address` asks for, is not known.
    NoObject,
    /// A `DW_OP_piece` or a `DW_OP_bit_piece` has to follow, and something else does (2.6.1.2).
    MissingPiece,
}

impl Kind {
    fn entry(self) -> (u8, &'static str)
        ensures { (result.0 ≡ (kind_entry self).0) × (result.1.now ≡ (kind_entry self).1) }
    {
        match self {
            Kind::StackUnderflow => (1, "StackUnderflow"),
            Kind::DivideByZero => (2, "DivideByZero"),
            Kind::NoRegister { .. } => (3, "NoRegister"),
            Kind::Unreadable { .. } => (4, "Unreadable"),
            Kind::Device => (5, "Device"),
            Kind::StepLimit => (6, "StepLimit"),
            Kind::EmptyResult => (7, "EmptyResult"),
            Kind::NotAValue => (8, "NotAValue"),
            Kind::NoFrameBase => (9, "NoFrameBase"),
            Kind::NoCfa => (10, "NoCfa"),
            Kind::NoObject => (11, "NoObject"),
            Kind::MissingPiece => (12, "MissingPiece"),
        }
    }

    /// The fault's number, 1 to 12.
    pub fn number(self) -> u8
        ensures { result ≡ (kind_entry self).0 }
    {
        self.entry().0
    }

    /// The fault's name, as the variant is written.
    pub fn name(self) -> &'static str
        ensures { result.now ≡ (kind_entry self).1 }
    {
        self.entry().1
    }

    /// This fault of the operation at an index.
    pub(crate) fn at(self, index: usize) -> EvalError
        ensures { result ≡ Fault self index }
    {
        EvalError::Fault { kind: self, index }
    }
}

impl fmt::Display for Kind {
    fn fmt<W: fmt::Write>(&self, f: &mut fmt::Formatter<W>) -> fmt::Result {
        write!(f, "{}", self.name())
    }
}

/// Why an evaluation has no answer.
#[derive(Clone, Copy, Debug, PartialEq, Eq, Error)]
pub enum EvalError {
    /// A fault. `kind` is what is wrong; `index` is that of the operation which it comes from, counted from 0, or the list's length for a fault at the end.
    #[error("{kind} at operation {index}")]
    Fault { kind: Kind, index: usize },
    /// A request for memory was refused.
    #[error("out of memory")]
    OutOfMemory,
}
