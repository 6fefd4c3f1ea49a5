//! Call frame instructions (6.4.2), with their factors multiplied out.

use dw_op::ExprRef;
use dw_row::RegRule;
use std::alloc::AllocError;

/// What the factored operands of instructions are multiplied by, from a CIE (6.4.1).
#[derive(Clone, Copy, Debug, PartialEq, Eq)]
pub struct Factors {
    /// `code_alignment_factor`, of advances.
    pub code_factor: u64,
    /// `data_alignment_factor`, of offsets.
    pub data_factor: i64,
}

/// A call frame instruction (6.4.2) with its factors multiplied out.
#[derive(Debug, Drop, PartialEq, Eq)]
pub enum Instr<'a> {
    /// `DW_CFA_nop` (6.4.2.5).
    Nop,
    /// `DW_CFA_set_loc` (6.4.2.1): the location is this address.
    SetLoc(u64),
    /// `DW_CFA_advance_loc`, `DW_CFA_advance_loc1`, `DW_CFA_advance_loc2`, `DW_CFA_advance_loc4` (6.4.2.1): the location grows by this much, in addresses: an
    /// operand below 2^32 times `code_alignment_factor`, so below 2^96 where it is read. It may lead out of the address space; `run` refuses that.
    Advance(u128),
    /// `DW_CFA_def_cfa`, `DW_CFA_def_cfa_sf` (6.4.2.2): the CFA is a register plus an offset, in bytes. One that is read is from -(2^63-1) to 2^63-1.
    DefCfa { register: u16, offset: i64 },
    /// `DW_CFA_def_cfa_register` (6.4.2.2): the CFA's rule keeps its offset.
    DefCfaRegister(u16),
    /// `DW_CFA_def_cfa_offset`, `DW_CFA_def_cfa_offset_sf` (6.4.2.2): the CFA's rule keeps its register, and has this offset, in
    /// bytes. One that is read is from -(2^63-1) to 2^63-1.
    DefCfaOffset(i64),
    /// `DW_CFA_def_cfa_expression` (6.4.2.2): the CFA is the value of an expression.
    DefCfaExpression(ExprRef<'a>),
    /// The register has this rule, which is not Unspecified (6.4.2.3): `DW_CFA_undefined`, `DW_CFA_same_value`, `DW_CFA_offset`,
    /// `DW_CFA_offset_extended`, `DW_CFA_offset_extended_sf`, `DW_CFA_val_offset`, `DW_CFA_val_offset_sf`, `DW_CFA_register`,
    /// `DW_CFA_expression` or `DW_CFA_val_expression`, each under its rule in `RegRule`.
    Set(u16, RegRule<'a>),
    /// `DW_CFA_restore`, `DW_CFA_restore_extended` (6.4.2.3): the register has its initial rule.
    Restore(u16),
    /// `DW_CFA_remember_state` (6.4.2.4): the rules are kept on a stack.
    RememberState,
    /// `DW_CFA_restore_state` (6.4.2.4): the rules are those that were kept last.
    RestoreState,
}

impl<'a> Clone for Instr<'a> {
    ghost use Rattle.std.specs.Prelude.{◌≡◌, ⊤};

    ghost is_clone = { λ instr copy. copy ≡ instr };

    ghost is_infallible = { λ _. ⊤ };

    fn clone(&self) -> Result<Instr<'a>, AllocError> {
        Ok(match self {
            Instr::Nop => Instr::Nop,
            Instr::SetLoc(address) => Instr::SetLoc(*address),
            Instr::Advance(distance) => Instr::Advance(*distance),
            Instr::DefCfa { register, offset } => Instr::DefCfa {
                register: *register,
                offset: *offset,
            },
            Instr::DefCfaRegister(register) => Instr::DefCfaRegister(*register),
            Instr::DefCfaOffset(offset) => Instr::DefCfaOffset(*offset),
            Instr::DefCfaExpression(expression) => Instr::DefCfaExpression(expression.copied()),
            Instr::Set(register, rule) => Instr::Set(*register, rule.copied()),
            Instr::Restore(register) => Instr::Restore(*register),
            Instr::RememberState => Instr::RememberState,
            Instr::RestoreState => Instr::RestoreState,
        })
    }
}
