//! Writing numbers at the end of a vector.

ghost use Rattle.std.specs.Prelude.{◌≡◌, ◌++◌, ◌<◌, ◌^◌, length, take, OnOk, OnErr};
ghost use Rattle.dw_num.specs.{Fixed.{IsWidth, fixed_bytes}, ShortestLeb.{PutsUleb, PutsSleb}, Inner.Scan.as_signed};

use crate::leb::turn;
use crate::target::Order;
use byteorder::{BigEndian, ByteOrder, LittleEndian};
use std::alloc::AllocError;

// Appends the groups, and may leave some of them where memory runs out.
fn push_groups(out: &mut Vec<u8>, value: u64) -> Result<(), AllocError>
    ensures ok { OnOk result (PutsUleb value out.old.items out.new.items) }
    ensures front { take (length out.old.items) out.new.items ≡ out.old.items }
{
    let mut rest = value;
    'groups: while rest > 127 {
        out.push((rest % 128) as u8 + 128)?;
        rest /= 128;
    }
    out.push(rest as u8)?;
    Ok(())
}

/// Appends the one shortest ULEB128 spelling of a number (7.6). Where memory runs out nothing is appended.
pub fn put_uleb(out: &mut Vec<u8>, value: u64) -> Result<(), AllocError>
    ensures ok { OnOk result (PutsUleb value out.old.items out.new.items) }
    ensures err { OnErr result (out.new.items ≡ out.old.items) }
{
    let start = out.len();
    let result = push_groups(out, value);
    if result.is_err() {
        out.truncate(start);
    }
    result
}

// The same for a signed number: the groups of `magnitude`, turned over for -1 - magnitude.
fn push_signed_groups(
    out: &mut Vec<u8>,
    is_negative: bool,
    magnitude: u64,
) -> Result<(), AllocError>
    requires { magnitude < 2 ^ 63 }
    ensures ok { OnOk result (PutsSleb (as_signed is_negative magnitude) out.old.items out.new.items) }
    ensures front { take (length out.old.items) out.new.items ≡ out.old.items }
{
    let mut rest = magnitude;
    'groups: while rest > 63 {
        out.push(turn(is_negative, (rest % 128) as u8) + 128)?;
        rest /= 128;
    }
    out.push(turn(is_negative, rest as u8))?;
    Ok(())
}

/// Appends the one shortest SLEB128 spelling of a number (7.6). Where memory runs out nothing is appended.
pub fn put_sleb(out: &mut Vec<u8>, value: i64) -> Result<(), AllocError>
    ensures ok { OnOk result (PutsSleb value out.old.items out.new.items) }
    ensures err { OnErr result (out.new.items ≡ out.old.items) }
{
    let start = out.len();
    let result = if value < 0 {
        push_signed_groups(out, true, (-1 - value) as u64)
    } else {
        push_signed_groups(out, false, value as u64)
    };
    if result.is_err() {
        out.truncate(start);
    }
    result
}

/// Appends a number as `width` bytes, 1, 2, 4 or 8 of them, in an order (7.5). The number has to be below 256^width. Where memory runs out nothing is appended.
pub fn put_fixed(
    out: &mut Vec<u8>,
    order: Order,
    width: usize,
    value: u64,
) -> Result<(), AllocError>
    requires width { IsWidth width }
    requires fits { value < 256 ^ width }
    ensures ok { OnOk result (out.new.items ≡ out.old.items ++ fixed_bytes order width value) }
    ensures err { OnErr result (out.new.items ≡ out.old.items) }
{
    let mut bytes = [0; 8];
    match order {
        Order::Little => LittleEndian::write_uint(&mut bytes, value, width),
        Order::Big => BigEndian::write_uint(&mut bytes, value, width),
    }
    out.extend_from_slice(&bytes[..width])
}
