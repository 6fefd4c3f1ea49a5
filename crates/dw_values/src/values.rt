//! A value by its name, and numbers digit by digit.

ghost use Rattle.std.specs.Prelude.{◌≡◌, ◌<◌, option_and_then};
ghost use Rattle.dw_num.specs.Digits.{below, number_behind};
ghost use Rattle.dw_values.specs.{Values.{address, decimal, order_of, size_of}, Inner.Values.digit_behind};

use dw_num::{Order, Size};

/// The size of an address that `4` or `8` says. Any other text is none.
pub fn size_named(text: &str) -> Option<Size>
    ensures { result ≡ size_of text.now }
{
    match text {
        "4" => Some(Size::Four),
        "8" => Some(Size::Eight),
        _ => None,
    }
}

/// The byte order that `little` or `big` says. Any other text is none.
pub fn order_named(text: &str) -> Option<Order>
    ensures { result ≡ order_of text.now }
{
    match text {
        "little" => Some(Order::Little),
        "big" => Some(Order::Big),
        _ => None,
    }
}

fn digit_behind(base: u8, number: u64, byte: u8) -> Option<u64>
    ensures { result ≡ digit_behind base number byte }
{
    let digit = match byte {
        b'0'..=b'9' => byte - b'0',
        b'a'..=b'f' => byte - b'a' + 10,
        b'A'..=b'F' => byte - b'A' + 10,
        _ => return None,
    };
    if digit >= base {
        return None;
    }
    let number = u128::from(number) * u128::from(base) + u128::from(digit);
    u64::try_from(number).ok()
}

fn number_of(base: u8, text: &[u8]) -> Option<u64>
    requires base { 0 < base }
    ensures { result ≡ option_and_then (below 18446744073709551616) (number_behind base 0 text.now) }
{
    let mut number = 0u64;
    for byte in text {
        number = digit_behind(base, number, *byte)?;
    }
    Some(number)
}

/// The number that one or more decimal digits say, below 2^64. Any other text is none.
pub fn decimal(text: &str) -> Option<u64>
    ensures { result ≡ decimal text.now }
{
    if text.is_empty() {
        return None;
    }
    number_of(10, text.as_bytes())
}

/// The address that `0x` and 1 to 16 hexadecimal digits say, below 2^32 or 2^64 by the size of an address. Any other text is none.
pub fn address(text: &[u8], size: Size) -> Option<u64>
    ensures { result ≡ address size text.now }
{
    if text.len() <= 2 || text.len() >= 19 || text[0] != b'0' || text[1] != b'x' {
        return None;
    }
    let number = number_of(16, &text[2..])?;
    (u128::from(number) < size.address_limit()).then_some(number)
}
