//! The LEB128 number at the front of a slice.

ghost use Rattle.std.specs.Prelude.{length, take, IfOk, MatchOption, Some, ⊤, ◌≡◌, ℕ, ◌+◌, ◌*◌, ◌<◌, ◌≤◌, ◌^◌};
ghost use Rattle.dw_num.specs.{Front.leb_len, Leb.{groups, is_negative, signed_groups}, Shortest.turned};
ghost use Rattle.dw_num.specs.Inner.Scan.{IsTotal, IsSignedTotal, signed_of, turned_from, unsigned_of};

use crate::refusal::Code;

// The last place of a group that 64 bits hold, and the greatest group there.
const TOP_PLACE: usize = 9;

const TOP_GROUP: u8 = 1;

// The sum with the group at a place.
fn add_group(total: u64, place: usize, group: u8) -> Option<u64>
    requires { group < 128 }
    ensures { IsTotal (total + group * 128 ^ place) result }
{
    if group == 0 {
        return Some(total);
    }
    if place > TOP_PLACE || (place == TOP_PLACE && group > TOP_GROUP) {
        return None;
    }
    total.checked_add((group as u64) << (7 * place))
}

// The same for a sum that may be too large already.
fn add_to(total: Option<u64>, place: usize, group: u8) -> Option<u64>
    requires { group < 128 }
    ensures { (sum : ℕ) → IsTotal sum total → IsTotal (sum + group * 128 ^ place) result }
{
    add_group(total?, place, group)
}

fn count_bytes(bytes: &[u8]) -> Option<usize>
    ensures found { result ≡ leb_len bytes.now }
    ensures within { MatchOption result ⊤ (λ n. (0 < n) × (n ≤ length bytes.now)) }
{
    for (i, byte) in bytes.iter().enumerate() {
        if *byte < 128 {
            return Some(i + 1);
        }
    }
    None
}

// The value bits of a byte, turned over or not.
pub(crate) fn turn(is_turned: bool, byte: u8) -> u8
    ensures value { result ≡ turned is_turned byte }
    ensures small { result < 128 }
{
    if is_turned {
        127 - byte % 128
    } else {
        byte % 128
    }
}

fn sum_turned(is_turned: bool, bytes: &[u8]) -> Option<u64>
    ensures { IsTotal (turned_from is_turned 0 bytes.now) result }
{
    let mut total = Some(0);
    for (i, byte) in bytes.iter().enumerate() {
        total = add_to(total, i, turn(is_turned, *byte));
    }
    total
}

fn has_sign(spelling: &[u8]) -> bool
    requires { 0 < length spelling.now }
    ensures { result ≡ is_negative spelling.now }
{
    spelling[spelling.len() - 1] % 128 >= 64
}

fn short_sum(spelling: &[u8]) -> u64
    requires { length spelling.now ≤ 9 }
    ensures { result ≡ groups spelling.now }
{
    let mut total = 0u64;
    for (i, byte) in spelling.iter().enumerate() {
        total += u64::from(*byte % 128) << (7 * i);
    }
    total
}

// The number that all the bytes spell, unless it passes 64 bits.
fn unsigned_sum(spelling: &[u8]) -> Option<u64>
    ensures { IsTotal (groups spelling.now) result }
{
    if spelling.len() > 9 {
        return sum_turned(false, spelling);
    }
    Some(short_sum(spelling))
}

// The signed number that all the bytes spell, unless it passes 64 bits.
fn signed_sum(spelling: &[u8]) -> Option<i64>
    requires { 0 < length spelling.now }
    ensures { IsSignedTotal (signed_groups spelling.now) result }
{
    let is_turned = has_sign(spelling);
    let Some(sum) = sum_turned(is_turned, spelling) else {
        return None;
    };
    if sum > 0x7fff_ffff_ffff_ffff {
        return None;
    }
    if is_turned {
        Some(-1 - (sum as i64))
    } else {
        Some(sum as i64)
    }
}

// A number of any length. Out of line, since most have one byte.
#[inline(never)]
fn read_long_unsigned(bytes: &[u8]) -> Result<(u64, usize), Code>
    ensures exact { result ≡ unsigned_of (leb_len bytes.now) bytes.now }
    ensures within { IfOk result (λ r. r.1 ≤ length bytes.now) }
{
    let len = count_bytes(bytes).ok_or(Code::Truncated)?;
    let value = unsigned_sum(&bytes[..len]).ok_or(Code::NumberTooLarge)?;
    Ok((value, len))
}

// The same in line: the room for its answer is cleared only where it is called.
#[inline(always)]
fn longer_unsigned(bytes: &[u8]) -> Result<(u64, usize), Code>
    ensures exact { result ≡ unsigned_of (leb_len bytes.now) bytes.now }
    ensures within { IfOk result (λ r. r.1 ≤ length bytes.now) }
{
    read_long_unsigned(bytes)
}

/// The number at the front and how many bytes it has, or what is wrong with it.
#[inline(always)]
pub(crate) fn read_unsigned(bytes: &[u8]) -> Result<(u64, usize), Code>
    ensures exact { result ≡ unsigned_of (leb_len bytes.now) bytes.now }
    ensures within { IfOk result (λ r. r.1 ≤ length bytes.now) }
{
    match bytes.first() {
        Some(byte) if *byte < 128 => Ok((u64::from(*byte), 1)),
        _ => longer_unsigned(bytes),
    }
}

// A signed number of any length.
#[inline(never)]
fn read_long_signed(bytes: &[u8]) -> Result<(i64, usize), Code>
    ensures exact { result ≡ signed_of (leb_len bytes.now) bytes.now }
    ensures within { IfOk result (λ r. r.1 ≤ length bytes.now) }
{
    let len = count_bytes(bytes).ok_or(Code::Truncated)?;
    let value = signed_sum(&bytes[..len]).ok_or(Code::NumberTooLarge)?;
    Ok((value, len))
}

// The same in line: the room for its answer is cleared only where it is called.
#[inline(always)]
fn longer_signed(bytes: &[u8]) -> Result<(i64, usize), Code>
    ensures exact { result ≡ signed_of (leb_len bytes.now) bytes.now }
    ensures within { IfOk result (λ r. r.1 ≤ length bytes.now) }
{
    read_long_signed(bytes)
}

/// The signed number at the front and how many bytes it has, or what is wrong with it.
#[inline(always)]
pub(crate) fn read_signed(bytes: &[u8]) -> Result<(i64, usize), Code>
    ensures exact { result ≡ signed_of (leb_len bytes.now) bytes.now }
    ensures within { IfOk result (λ r. r.1 ≤ length bytes.now) }
{
    match bytes.first() {
        Some(byte) if *byte < 64 => Ok((i64::from(*byte), 1)),
        Some(byte) if *byte < 128 => Ok((i64::from(*byte) - 128, 1)),
        _ => longer_signed(bytes),
    }
}
