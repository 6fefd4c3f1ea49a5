//! Why a section is refused, and where.

ghost use Rattle.std.specs.Prelude.{◌≡◌};
ghost use Rattle.dw_num.specs.Codes.{code_entry};

use std::fmt;
use thiserror::Error;

/// What is wrong. Fields are named as in 6.4.1, instructions as in 6.4.2. N is the number of bits of an address.
#[derive(Clone, Copy, Debug, PartialEq, Eq)]
pub enum Code {
    /// A field runs out of its container; the place is the field's first byte.
    Truncated,
    /// A `length` from 0xfffffff0 to 0xfffffffe; the place is the length (7.4).
    ReservedLength,
    /// An entry's `length` passes the section's end; the place is the entry.
    EntryPastEnd,
    /// A CIE's `version` is none of 1, 3 and 4; the place is its byte.
    BadVersion,
    /// A CIE's `augmentation` is not empty; the place is the string.
    Augmentation,
    /// The `address_size` of a CIE of version 4 is not the target's; the place is its byte.
    AddressSize,
    /// The `segment_selector_size` of a CIE of version 4 is not 0; the place is its byte.
    SegmentSelector,
    /// A LEB128 number ends but does not fit 64 bits; the place is its first byte (7.6).
    NumberTooLarge,
    /// A register above 65,535, also as `return_address_register`; the place is the operand.
    RegisterTooLarge,
    /// A `CIE_pointer` names no CIE; the place is the pointer.
    NoSuchCie,
    /// `initial_location` plus `address_range` is above 2^N, which itself is no fault; the place is the range.
    RangeTooLarge,
    /// An opcode of no call frame instruction (7.24), or of a vendor's, from `DW_CFA_lo_user` to `DW_CFA_hi_user`; the place is the opcode.
    UnknownInstruction,
    /// An instruction that `initial_instructions` may not hold: an advance, `DW_CFA_set_loc`, `DW_CFA_restore`,
    /// `DW_CFA_restore_extended`, `DW_CFA_remember_state` or `DW_CFA_restore_state`; the place is its opcode.
    NotInCie,
    /// A `DW_CFA_set_loc` below the current location; the place is its opcode.
    LocationBackwards,
    /// A location above 2^N, which itself is no fault, by `DW_CFA_advance_loc` or the like; the place is the opcode.
    LocationTooLarge,
    /// A `DW_CFA_restore_state` with no remembered state; the place is its opcode.
    EmptyStateStack,
    /// The 65th state that `DW_CFA_remember_state` keeps at once; the place is its opcode.
    StateStackFull,
    /// `DW_CFA_def_cfa_register`, `DW_CFA_def_cfa_offset` or `DW_CFA_def_cfa_offset_sf` where the CFA is not register and offset
    /// (6.4.2.2); the place is the opcode.
    CfaNotRegister,
    /// An offset outside -(2^63-1) to 2^63-1; the place is the instruction's opcode.
    OffsetTooLarge,
    /// An opcode of no operation (7.7.1), or of one that is not read: `DW_OP_xderef`, `DW_OP_xderef_size`, `DW_OP_call2`,
    /// `DW_OP_call4`, `DW_OP_call_ref`, `DW_OP_form_tls_address`, `DW_OP_implicit_pointer`, `DW_OP_addrx`, `DW_OP_constx`,
    /// `DW_OP_entry_value`, `DW_OP_const_type`, `DW_OP_regval_type`, `DW_OP_deref_type`, `DW_OP_xderef_type`,
    /// `DW_OP_convert`, `DW_OP_reinterpret`, and those from `DW_OP_lo_user` to `DW_OP_hi_user`; the place is the opcode.
    UnknownOperation,
    /// An operation that call frame expressions may not hold (6.4.2), see `Profile::Frame` of `dw_op`; the place is its opcode.
    NotInFrame,
    /// A `DW_OP_bra` or `DW_OP_skip` that leads to no operation of its block, nor to its end (2.5.1.5); the place is its opcode.
    BadBranch,
    /// A `DW_OP_deref_size` of 0 or above the address size (2.5.1.3); the place is its operand.
    BadDerefSize,
    /// An FDE has a covered address without a CFA rule; the place is the FDE.
    NoCfaRule,
    /// Two FDEs cover one address; the place is the second of the two, in the order of `initial_location` and then of place.
    Overlap,
    /// A section above 2,147,483,647 bytes; the place is 0.
    SectionTooLarge,
    /// A normal form above its cap; the place is 0.
    NormalTooLong,
}

impl Code {
    /// The refusal's number, 1 to 27.
    pub fn number(self) -> u8
        ensures { result ≡ (code_entry self).0 }
    {
        self as u8 + 1
    }

    /// The refusal's name, as the variant is written.
    pub fn name(self) -> &'static str
        ensures { result.now ≡ (code_entry self).1 }
    {
        match self {
            Code::Truncated => "Truncated",
            Code::ReservedLength => "ReservedLength",
            Code::EntryPastEnd => "EntryPastEnd",
            Code::BadVersion => "BadVersion",
            Code::Augmentation => "Augmentation",
            Code::AddressSize => "AddressSize",
            Code::SegmentSelector => "SegmentSelector",
            Code::NumberTooLarge => "NumberTooLarge",
            Code::RegisterTooLarge => "RegisterTooLarge",
            Code::NoSuchCie => "NoSuchCie",
            Code::RangeTooLarge => "RangeTooLarge",
            Code::UnknownInstruction => "UnknownInstruction",
            Code::NotInCie => "NotInCie",
            Code::LocationBackwards => "LocationBackwards",
            Code::LocationTooLarge => "LocationTooLarge",
            Code::EmptyStateStack => "EmptyStateStack",
            Code::StateStackFull => "StateStackFull",
            Code::CfaNotRegister => "CfaNotRegister",
            Code::OffsetTooLarge => "OffsetTooLarge",
            Code::UnknownOperation => "UnknownOperation",
            Code::NotInFrame => "NotInFrame",
            Code::BadBranch => "BadBranch",
            Code::BadDerefSize => "BadDerefSize",
            Code::NoCfaRule => "NoCfaRule",
            Code::Overlap => "Overlap",
            Code::SectionTooLarge => "SectionTooLarge",
            Code::NormalTooLong => "NormalTooLong",
        }
    }
}

impl fmt::Display for Code {
    fn fmt<W: fmt::Write>(&self, f: &mut fmt::Formatter<W>) -> fmt::Result {
        write!(f, "{}", self.name())
    }
}

/// A fault, and the byte that it is found at: a place in the section, or in the block where a block alone was given.
#[derive(Clone, Copy, Debug, PartialEq, Eq, Error)]
#[error("{code} at byte {at}")]
pub struct Refusal {
    /// What is wrong.
    pub code: Code,
    /// The place of the byte.
    pub at: u64,
}
