//! What a machine held: registers, and memory as windows of addresses over one buffer.

ghost use Rattle.std.specs.{Prelude.{◌≡◌, ℕ, ◌+◌, ◌<◌, ◌≤◌, true, false, IfSome, OnOk, Some, None, [], ⊤, length}, Bool.MatchBool};
ghost use Rattle.dw_eval.specs.{Bytes.bytes_from, Registers.held};
ghost use Rattle.dw_library.specs.{Registers.given_in, Windows.{covers, byte_of, byte_among}, Inner.Windows.Spells};

use dw_eval::{Memory, ReadFault, Registers};
use dw_num::{Order, number_of};
use std::alloc::AllocError;

/// A register: its number, whether its value is known (0 where it is not), and the value.
#[repr(C)]
#[derive(Clone, Copy)]
pub struct Register {
    /// The register's DWARF number.
    pub number: u16,
    /// Not 0 where the value is known.
    pub known: u16,
    /// 0. It is not looked at.
    pub reserved: u32,
    /// The value, taken modulo 2^N.
    pub value: u64,
}

/// Bytes of a machine's memory: `len` addresses from `address` on, whose bytes stand in a buffer from `place` on.
#[repr(C)]
#[derive(Clone, Copy)]
pub struct Window {
    /// The first address.
    pub address: u64,
    /// Where its byte stands in the buffer.
    pub place: usize,
    /// How many addresses.
    pub len: usize,
}

/// What a machine held.
#[repr(C)]
#[derive(Clone, Copy)]
pub struct Held<'a> {
    /// Its registers.
    pub registers: &'a [Register],
    /// Which addresses of its memory are there.
    pub windows: &'a [Window],
    /// The buffer that the windows are over.
    pub memory: &'a [u8],
}

/// Lets registers that hold nothing hold these values. If a register is given twice, its first known value is used.
pub(crate) fn give_all(registers: &mut Registers, given: &[Register]) -> Result<(), AllocError>
    requires { registers.old ≡ [] }
    ensures { OnOk result ((r : ℕ) → held registers.new r ≡ given_in given.now r) }
{
    let mut left = given.len();
    'given: while left > 0 {
        left -= 1;
        let register = given[left];
        if register.known == 0 {
            continue;
        }
        registers.set(register.number, register.value)?;
    }
    Ok(())
}

fn covers(window: &Window, address: u128) -> bool
    ensures { result ≡ covers address window.now }
{
    let begin = u128::from(window.address);
    begin <= address && address < begin + window.len as u128
}

// The byte that a window has at an address that it covers, where the buffer is long enough.
fn byte_of(window: &Window, bytes: &[u8], address: u128) -> Option<u8>
    requires covers { covers address window.now ≡ true }
    ensures { result ≡ byte_of bytes.now address window.now }
{
    let place = window.place as u128 + (address - u128::from(window.address));
    if place < bytes.len() as u128 {
        return Some(bytes[place as usize]);
    }
    None
}

fn byte_at(windows: &[Window], bytes: &[u8], address: u128) -> Option<u8>
    ensures { result ≡ byte_among bytes.now windows.now address }
{
    'windows: for i in 0..windows.len() {
        if covers(&windows[i], address) {
            return byte_of(&windows[i], bytes, address);
        }
    }
    None
}

// Whether a window has none of so many addresses.
fn is_apart(window: &Window, address: u64, len: usize) -> bool
    ensures { MatchBool result ((k : ℕ) → k < len → covers (address + k) window.now ≡ false) ⊤ }
{
    if address < window.address {
        window.address - address >= len as u64
    } else {
        address - window.address >= window.len as u64
    }
}

// The bytes from an address on, where one window has them all.
fn bytes_of<'a>(window: &Window, bytes: &'a [u8], address: u64, len: usize) -> Option<&'a [u8]>
    ensures len { IfSome result (λ found. length found.now ≡ len) }
    ensures spelled { IfSome result (λ found. Spells window.now bytes.now address found.now) }
{
    let offset = address.checked_sub(window.address)?;
    let left = window.len as u64;
    if offset >= left || left - offset < len as u64 {
        return None;
    }
    let place = window.place as u128 + u128::from(offset);
    if place + len as u128 > bytes.len() as u128 {
        return None;
    }
    let place = place as usize;
    Some(&bytes[place..place + len])
}

// The bytes from an address on, where the first window that has one of them has them all.
fn whole<'a>(windows: &[Window], bytes: &'a [u8], address: u64, len: usize) -> Option<&'a [u8]>
    ensures len { IfSome result (λ found. length found.now ≡ len) }
    ensures all { IfSome result (λ found. bytes_from (byte_among bytes.now windows.now) address len ≡ Some found.now) }
{
    'windows: for i in 0..windows.len() {
        if !is_apart(&windows[i], address, len) {
            return bytes_of(&windows[i], bytes, address, len);
        }
    }
    None
}

// Fills a buffer with the bytes from an address on, unless one of them is missing.
fn fill(windows: &[Window], bytes: &[u8], address: u64, buffer: &mut [u8]) -> bool
    ensures { MatchBool result
        (bytes_from (byte_among bytes.now windows.now) address (length buffer.old) ≡ Some buffer.new)
        (bytes_from (byte_among bytes.now windows.now) address (length buffer.old) ≡ None) }
{
    for (i, slot) in buffer.iter_mut().enumerate() {
        let Some(byte) = byte_at(windows, bytes, u128::from(address) + i as u128) else {
            return false;
        };
        *slot = byte;
    }
    true
}

// The memory of windows over one buffer. Its device never fails.
impl<'a> Memory for Held<'a> {
    ghost byte = { λ m. byte_among m.memory.now m.windows.now };

    ghost failures = { λ _. 0 };

    #[tactic(auto, unfolding(dw_eval::specs::Bytes::number_in_memory))]
    fn read(&mut self, address: u64, len: usize, order: Order) -> Result<u64, ReadFault> {
        if let Some(found) = whole(self.windows, self.memory, address, len) {
            return Ok(number_of(order, found));
        }
        let mut buffer = [0; 8];
        let spelled = &mut buffer[..len];
        if !fill(self.windows, self.memory, address, spelled) {
            return Err(ReadFault::Unreadable);
        }
        Ok(number_of(order, spelled))
    }
}
