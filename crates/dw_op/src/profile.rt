//! What a block is for.

/// What the operations of a block are for, which says which of them it may hold.
#[derive(Clone, Copy, Debug, PartialEq, Eq)]
pub enum Profile {
    /// A rule of a call frame (6.4.2). Its block may not hold `DW_OP_reg0` to `DW_OP_reg31`, `DW_OP_regx`, `DW_OP_fbreg`,
    /// `DW_OP_piece`, `DW_OP_push_object_address`, `DW_OP_call_frame_cfa`, `DW_OP_bit_piece`, `DW_OP_implicit_value` or `DW_OP_stack_value`.
    Frame,
    /// A location description, or an expression that is evaluated by itself (2.5 and 2.6).
    Location,
}
