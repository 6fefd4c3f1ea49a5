//! What an expression is evaluated in.

use crate::registers::Registers;
use dw_num::Target;

/// What an expression may ask for. Values are taken modulo 2^N, where an address has N bits.
#[derive(Clone, Copy)]
pub struct Env<'a> {
    /// The machine that the expression is for.
    pub target: Target,
    /// The values of registers, which `DW_OP_breg0` to `DW_OP_bregx` ask for.
    pub registers: &'a Registers,
    /// The frame base (`DW_AT_frame_base`, 3.3.5), which `DW_OP_fbreg` asks for.
    pub frame_base: Option<u64>,
    /// The canonical frame address (6.4), which `DW_OP_call_frame_cfa` asks for.
    pub cfa: Option<u64>,
    /// The address of the object (2.5.1.3), which `DW_OP_push_object_address` asks for.
    pub object: Option<u64>,
}
