//! Operations of DWARF expressions.

ghost use Rattle.std.specs.Prelude.{◌≡◌, ◌<◌, ◌^◌};
ghost use Rattle.dw_op.specs.Inner.{Codes.alone_code, Ranges.IsTyped};

/// An operation (2.5.1, 2.6.1, 7.7.1). A branch names the operation that it goes to by its index in the list, the list's length for the end. An address
/// has N bits. A variant that several operations are read as names each of them. Those that are not read are listed at `Code::UnknownOperation`.
#[derive(Clone, Copy, Debug, PartialEq, Eq)]
pub enum Op<'a> {
    /// `DW_OP_addr`: push this address (2.5.1.1).
    Addr(u64),
    /// `DW_OP_deref`: replace the top, an address, by the N/8 bytes there (2.5.1.3).
    Deref,
    /// `DW_OP_lit0` to `DW_OP_lit31`, `DW_OP_const1u`, `DW_OP_const1s`, `DW_OP_const2u`, `DW_OP_const2s`, `DW_OP_const4u`,
    /// `DW_OP_const4s`, `DW_OP_const8u`, `DW_OP_const8s`, `DW_OP_constu`, `DW_OP_consts`: push this number, modulo 2^N (2.5.1.1).
    Const(u64),
    /// `DW_OP_dup`: push the top once more (2.5.1.3).
    Dup,
    /// `DW_OP_drop`: take the top (2.5.1.3).
    Drop,
    /// `DW_OP_over`: push the second entry (2.5.1.3).
    Over,
    /// `DW_OP_pick`: push the entry of this index, the top being 0 (2.5.1.3).
    Pick(u8),
    /// `DW_OP_swap`: exchange the top two entries (2.5.1.3).
    Swap,
    /// `DW_OP_rot`: the top becomes third, the second top, the third second (2.5.1.3).
    Rot,
    /// `DW_OP_abs`: the absolute value of the signed top (2.5.1.4).
    Abs,
    /// `DW_OP_and`: bit by bit (2.5.1.4).
    And,
    /// `DW_OP_div`: the second by the top, signed, toward zero (2.5.1.4).
    Div,
    /// `DW_OP_minus`: the second less the top (2.5.1.4).
    Minus,
    /// `DW_OP_mod`: the remainder of the second by the top, unsigned (2.5.1.4).
    Mod,
    /// `DW_OP_mul`: the second times the top (2.5.1.4).
    Mul,
    /// `DW_OP_neg`: 0 less the top (2.5.1.4).
    Neg,
    /// `DW_OP_not`: all bits of the top turned (2.5.1.4).
    Not,
    /// `DW_OP_or`: bit by bit (2.5.1.4).
    Or,
    /// `DW_OP_plus`: the second and the top added (2.5.1.4).
    Plus,
    /// `DW_OP_plus_uconst`: the top plus this number (2.5.1.4).
    PlusUconst(u64),
    /// `DW_OP_shl`: the second shifted to the left by the top (2.5.1.4).
    Shl,
    /// `DW_OP_shr`: the second shifted to the right by the top, with zeros (2.5.1.4).
    Shr,
    /// `DW_OP_shra`: the second shifted to the right by the top, with its sign (2.5.1.4).
    Shra,
    /// `DW_OP_xor`: bit by bit (2.5.1.4).
    Xor,
    /// `DW_OP_bra`: take the top; where it is not 0, go on at the operation of this index (2.5.1.5).
    Bra(usize),
    /// `DW_OP_eq`: 1 where the second equals the top, else 0 (2.5.1.5).
    Eq,
    /// `DW_OP_ge`: 1 where the second is at least the top, signed, else 0 (2.5.1.5).
    Ge,
    /// `DW_OP_gt`: 1 where the second is above the top, signed, else 0 (2.5.1.5).
    Gt,
    /// `DW_OP_le`: 1 where the second is at most the top, signed, else 0 (2.5.1.5).
    Le,
    /// `DW_OP_lt`: 1 where the second is below the top, signed, else 0 (2.5.1.5).
    Lt,
    /// `DW_OP_ne`: 1 where the second differs from the top, else 0 (2.5.1.5).
    Ne,
    /// `DW_OP_skip`: go on at the operation of this index (2.5.1.5).
    Skip(usize),
    /// `DW_OP_reg0` to `DW_OP_reg31`, `DW_OP_regx`: the place is this register (2.6.1.1.2).
    Reg(u16),
    /// `DW_OP_breg0` to `DW_OP_breg31`, `DW_OP_bregx`: push the value of a register plus an offset in bytes (2.5.1.2).
    Breg(u16, i64),
    /// `DW_OP_fbreg`: push the frame base plus an offset in bytes (2.5.1.2).
    Fbreg(i64),
    /// `DW_OP_piece`: the place holds the next bytes, so many (2.6.1.2).
    Piece(u64),
    /// `DW_OP_deref_size`: replace the top, an address, by so many bytes there, extended with zeros (2.5.1.3).
    DerefSize(u8),
    /// `DW_OP_nop`: nothing (2.5.1.7).
    Nop,
    /// `DW_OP_push_object_address`: push the object's address (2.5.1.3).
    PushObjectAddress,
    /// `DW_OP_call_frame_cfa`: push the canonical frame address (2.5.1.3).
    CallFrameCfa,
    /// `DW_OP_bit_piece`: the place holds the next bits: their number, and the offset in bits (2.6.1.2).
    BitPiece(u64, u64),
    /// `DW_OP_implicit_value`: these bytes are the value (2.6.1.1.3).
    Implicit(&'a [u8]),
    /// `DW_OP_stack_value`: the top is the value (2.6.1.1.3).
    StackValue,
}

fn is_number(number: u64)
    ensures { number < 2 ^ 64 }
{
    let _ = number;
}

// The operands of an operation are of their types.
pub(crate) fn are_typed(op: &Op<'_>)
    ensures { IsTyped op.now }
{
    match *op {
        Op::Addr(number) | Op::Const(number) | Op::PlusUconst(number) | Op::Piece(number) =>
            is_number(number),
        Op::Pick(number) | Op::DerefSize(number) => prove!(number <= u8::MAX),
        Op::Reg(register) => prove!(register <= u16::MAX),
        Op::Breg(_register, _offset) => (),
        Op::Fbreg(_offset) => (),
        Op::BitPiece(size, offset) => prove!(size <= u64::MAX && offset <= u64::MAX),
        Op::Implicit(bytes) => is_number(bytes.len() as u64),
        _ => (),
    }
}

/// The code of an operation that has no operands, 0 of the others (DWARF 5, 7.7.1).
pub(crate) fn alone_code(op: &Op<'_>) -> u8
    ensures { result ≡ alone_code op.now }
{
    match *op {
        Op::Deref => 0x06,
        Op::Dup => 0x12,
        Op::Drop => 0x13,
        Op::Over => 0x14,
        Op::Swap => 0x16,
        Op::Rot => 0x17,
        Op::Abs => 0x19,
        Op::And => 0x1a,
        Op::Div => 0x1b,
        Op::Minus => 0x1c,
        Op::Mod => 0x1d,
        Op::Mul => 0x1e,
        Op::Neg => 0x1f,
        Op::Not => 0x20,
        Op::Or => 0x21,
        Op::Plus => 0x22,
        Op::Shl => 0x24,
        Op::Shr => 0x25,
        Op::Shra => 0x26,
        Op::Xor => 0x27,
        Op::Eq => 0x29,
        Op::Ge => 0x2a,
        Op::Gt => 0x2b,
        Op::Le => 0x2c,
        Op::Lt => 0x2d,
        Op::Ne => 0x2e,
        Op::Nop => 0x96,
        Op::PushObjectAddress => 0x97,
        Op::CallFrameCfa => 0x9c,
        Op::StackValue => 0x9f,
        _ => 0,
    }
}
