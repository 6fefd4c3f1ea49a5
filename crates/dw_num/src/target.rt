//! What a reader has to know of the machine, and how entries spell their lengths.

ghost use Rattle.std.specs.Prelude.{◌≡◌};
ghost use Rattle.dw_num.specs.Target.{address_limit, byte_count};

/// The size of an address in bytes (`address_size` of a CIE, 6.4.1). N is eight times that.
#[derive(Clone, Copy, Debug, PartialEq, Eq)]
pub enum Size {
    /// `address_size` 4: N is 32.
    Four,
    /// `address_size` 8: N is 64.
    Eight,
}

impl Size {
    /// How many bytes an address has, 4 or 8.
    pub fn byte_count(self) -> u8
        ensures { result ≡ byte_count self }
    {
        match self {
            Size::Four => 4,
            Size::Eight => 8,
        }
    }

    /// 2^N, the first number that is no address.
    pub fn address_limit(self) -> u128
        ensures { result ≡ address_limit self }
    {
        match self {
            Size::Four => 0x1_0000_0000,
            Size::Eight => 0x1_0000_0000_0000_0000,
        }
    }
}

/// The order of the bytes of a number of a fixed width.
#[derive(Clone, Copy, Debug, PartialEq, Eq)]
pub enum Order {
    /// The least significant byte first.
    Little,
    /// The most significant byte first.
    Big,
}

/// The 32-bit and the 64-bit form of an entry (7.4), called 32-bit and 64-bit DWARF there.
#[derive(Clone, Copy, Debug, PartialEq, Eq)]
pub enum Form {
    /// The `length` is 4 bytes, and so are `CIE_id` and `CIE_pointer`.
    Dwarf32,
    /// The `length` is 12 bytes, the first four of them `0xffffffff`; `CIE_id` and `CIE_pointer` are 8.
    Dwarf64,
}

/// The `length` at the front of an entry (6.4.1, 7.4). It does not count its own bytes.
#[derive(Clone, Copy, Debug, PartialEq, Eq)]
pub struct UnitLength {
    /// Which of the two forms spells it.
    pub form: Form,
    /// How many bytes stand behind it.
    pub length: u64,
}

/// The machine that a section is for.
#[derive(Clone, Copy, Debug, PartialEq, Eq)]
pub struct Target {
    /// The size of an address, which each CIE of version 4 says again (`address_size`).
    pub size: Size,
    /// The order of bytes.
    pub order: Order,
}
