//! Places (2.6.1).

/// Where a value, or a piece of it, stands.
#[derive(Clone, Copy, Debug, PartialEq, Eq)]
pub enum Place<'a> {
    /// Nowhere: an empty location description (2.6.1.1.4).
    Empty,
    /// In memory, from this address on: the value of an expression (2.6.1.1.1).
    Memory(u64),
    /// In a register: `DW_OP_reg0` to `DW_OP_regx` (2.6.1.1.2).
    Register(u16),
    /// This is the value: `DW_OP_stack_value` (2.6.1.1.3).
    Value(u64),
    /// These bytes are the value: `DW_OP_implicit_value` (2.6.1.1.3).
    Bytes(&'a [u8]),
}

/// Which part of a value stands in a place (2.6.1.2).
#[derive(Clone, Copy, Debug, PartialEq, Eq)]
pub enum Part {
    /// All of it.
    Whole,
    /// The next bytes, so many: `DW_OP_piece`.
    Bytes(u64),
    /// The next bits, `size` of them, which begin `offset` bits into the place: `DW_OP_bit_piece`.
    Bits { size: u64, offset: u64 },
}

/// A part of a value, and its place.
#[derive(Clone, Copy, Debug, PartialEq, Eq)]
pub struct Piece<'a> {
    /// Where it stands.
    pub place: Place<'a>,
    /// Which part it is.
    pub part: Part,
}
