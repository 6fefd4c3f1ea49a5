//! Reading numbers from a slice, from its front on.

ghost use Rattle.std.specs.Prelude.{◌≡◌, ◌⊎◌, ℕ, ℤ, ◌+◌, ◌<◌, ◌≤◌, ◌^◌, List, [], ◌∷◌, ◌++◌, length, take, IfErr, IfOk, None, Some};
ghost use Rattle.dw_num.specs.{Fixed.{Address, Fixed, IsWidth, SpellsLength, fixed_number}, Front.{Reads, fixed_at, take_at, register_at}};
ghost use Rattle.dw_num.specs.{Front.{leb_len, uleb_at, sleb_at, address_at, unit_length_at}, Input.{AreBytes, Takes, behind}};
ghost use Rattle.dw_num.specs.{Leb.{Register, Sleb, Uleb}, declared.refusal.Code.TheVariants.Truncated};

use crate::leb::{read_signed, read_unsigned};
use crate::refusal::{Code, Refusal};
use crate::target::{Form, Order, Size, Target, UnitLength};
use byteorder::{BigEndian, ByteOrder, LittleEndian};
use std::marker::Model;

// The greatest number of a register.
const LAST_REGISTER: u64 = 65_535;

/// A law: the items of a slice of bytes are below 256, which a contract does not see of a list.
pub fn are_bytes(bytes: &[u8])
    ensures { AreBytes bytes.now }
{
    let _ = bytes;
}

// The number that the first four bytes spell. Here and below the length of each slice is known as this is compiled: no byte is tested alone.
#[inline(always)]
fn four_in(order: Order, bytes: &[u8]) -> u64
    requires { 4 ≤ length bytes.now }
    ensures { result ≡ fixed_number order 4 bytes.now }
{
    match order {
        Order::Little => u64::from(LittleEndian::read_u32(&bytes[..4])),
        Order::Big => u64::from(BigEndian::read_u32(&bytes[..4])),
    }
}

#[inline(always)]
fn eight_in(order: Order, bytes: &[u8]) -> u64
    requires { 8 ≤ length bytes.now }
    ensures { result ≡ fixed_number order 8 bytes.now }
{
    match order {
        Order::Little => LittleEndian::read_u64(&bytes[..8]),
        Order::Big => BigEndian::read_u64(&bytes[..8]),
    }
}

/// The number that the first `n` bytes are, 4 or 8 of them, in an order (7.5).
#[inline(always)]
pub fn word_in(order: Order, bytes: &[u8], n: usize) -> u64
    requires width { (n ≡ 4) ⊎ (n ≡ 8) }
    requires room { n ≤ length bytes.now }
    ensures is { result ≡ fixed_number order n bytes.now }
    ensures found { Fixed order n result (take n bytes.now) }
{
    match n {
        4 => four_in(order, bytes),
        _ => eight_in(order, bytes),
    }
}

// The number that the first bytes spell. By a width that is known where this is compiled it is one of those above.
#[inline(always)]
fn number_in(order: Order, bytes: &[u8], n: usize) -> u64
    requires width { IsWidth n }
    requires room { n ≤ length bytes.now }
    ensures { result ≡ fixed_number order n bytes.now }
{
    match (n, order) {
        (1, _) => u64::from(bytes[0]),
        (2, Order::Little) => u64::from(LittleEndian::read_u16(&bytes[..2])),
        (2, Order::Big) => u64::from(BigEndian::read_u16(&bytes[..2])),
        _ => word_in(order, bytes, n),
    }
}

/// The number that 1 to 8 bytes are in an order (7.5).
pub fn number_of(order: Order, bytes: &[u8]) -> u64
    requires some { 1 ≤ length bytes.now }
    requires most { length bytes.now ≤ 8 }
    ensures { result ≡ fixed_number order (length bytes.now) bytes.now }
{
    match (order, bytes.len()) {
        (_, 8) => eight_in(order, bytes),
        (_, 4) => four_in(order, bytes),
        (Order::Little, len) => LittleEndian::read_uint(bytes, len),
        (Order::Big, len) => BigEndian::read_uint(bytes, len),
    }
}

/// A slice of a section that is read from its front on. A contract sees the bytes that are left, where in the section they begin, and the target.
/// A read that is refused leaves the cursor as it was. No call takes memory.
#[derive(Drop)]
pub struct Cursor<'a> {
    bytes: &'a [u8],
    // The place of the end, which no read changes.
    end: u64,
    target: Target,
}

impl<'a> Model for Cursor<'a> {
    ghost use Rattle.std.specs.Prelude.{◌-◌, ◌<◌, ◌≤◌, ◌^◌, length};
    ghost use Rattle.dw_num.specs.Input.{Input};

    ghost Value = { Input };

    ghost view = { λ c. record { at = c.end - length c.bytes.now; bytes = c.bytes.now; target = c.target } };

    ghost invariant = { λ c. (length c.bytes.now ≤ c.end) × (c.end < 2 ^ 63) };
}

impl<'a> Cursor<'a> {
    /// A cursor at the front of a slice that stands at `base` in the section. Their sum is below 2^63.
    pub fn new(bytes: &'a [u8], base: u64, target: Target) -> Cursor<'a>
        requires { base + length bytes.now < 2 ^ 63 }
        ensures { result ≡ record { at = base; bytes = bytes.entry.now; target = target } }
    {
        Cursor {
            bytes,
            end: base + bytes.len() as u64,
            target,
        }
    }

    /// The place of the next byte: the base, and what was read.
    #[inline(always)]
    pub fn at(&self) -> u64
        ensures place { result ≡ self.now.at }
        ensures bounded { self.now.at + length self.now.bytes < 2 ^ 63 }
    {
        self.end - self.bytes.len() as u64
    }

    /// How many bytes are left.
    #[inline(always)]
    pub fn left(&self) -> usize
        ensures { result ≡ length self.now.bytes }
    {
        self.bytes.len()
    }

    /// What the section is for.
    #[inline(always)]
    pub fn target(&self) -> Target
        ensures { result ≡ self.now.target }
    {
        self.target
    }

    /// All that is left.
    #[inline(always)]
    pub fn rest(&self) -> &'a [u8]
        ensures { result.now ≡ self.now.bytes }
    {
        self.bytes
    }

    /// The next `n` bytes. `Truncated` at the first of them where fewer are left.
    #[tactic(auto, unfolding(crate::specs::Front::take_at))]
    #[inline(always)]
    pub fn take(&mut self, n: u64) -> Result<&'a [u8], Refusal>
        ensures found { IfOk result (λ s. (length s.now ≡ n) × Takes self.old s.now self.new) }
        ensures exact { Reads (λ s. s.now) result self.old (take_at n self.old) self.new }
    {
        if (self.bytes.len() as u64) < n {
            return Err(self.refuse(Code::Truncated));
        }
        let (front, rest) = self.bytes.split_at(n as usize);
        self.bytes = rest;
        Ok(front)
    }

    #[tactic(auto, unfolding(crate::specs::Front::fixed_at))]
    #[inline(always)]
    fn read_fixed(&mut self, n: usize) -> Result<u64, Refusal>
        requires { IsWidth n }
        ensures { Reads (λ v. v) result self.old (fixed_at n self.old) self.new }
    {
        if self.bytes.len() < n {
            return Err(self.refuse(Code::Truncated));
        }
        let number = number_in(self.target.order, self.bytes, n);
        self.pass(n);
        Ok(number)
    }

    /// The next byte. `Truncated` at its place where there is none.
    #[tactic(auto, using(crate::proofs::Lent::FixedLaws::one_byte), unfolding(crate::specs::Front::fixed_at, crate::specs::Front::take_at))]
    #[inline(always)]
    pub fn byte(&mut self) -> Result<u8, Refusal>
        ensures found { IfOk result (λ b. Takes self.old (b ∷ []) self.new) }
        ensures exact { Reads (λ b. b) result self.old (fixed_at 1 self.old) self.new }
    {
        let byte = self.take(1)?;
        Ok(byte[0])
    }

    /// The number that the next `n` bytes are, 1, 2, 4 or 8 of them, in the target's order (7.5). `Truncated` at the first of them where fewer are left.
    #[inline(always)]
    pub fn fixed(&mut self, n: usize) -> Result<u64, Refusal>
        requires { IsWidth n }
        ensures found { IfOk result (λ v. (b : List ℕ) × Fixed self.old.target.order n v b × Takes self.old b self.new) }
        ensures only { (v : ℕ) (b rest : List ℕ) → Fixed self.old.target.order n v b → self.old.bytes ≡ b ++ rest → result ≡ Ok v }
        ensures exact { Reads (λ v. v) result self.old (fixed_at n self.old) self.new }
    {
        are_bytes(self.bytes);
        self.read_fixed(n)
    }

    #[inline(always)]
    fn pass(&mut self, n: usize)
        requires { n ≤ length self.old.bytes }
        ensures { self.new ≡ behind n self.old }
    {
        self.bytes = &self.bytes[n..];
    }

    #[tactic(auto, unfolding(crate::specs::Front::uleb_at))]
    #[inline(always)]
    fn read_uleb(&mut self) -> Result<u64, Refusal>
        ensures { Reads (λ v. v) result self.old (uleb_at self.old) self.new }
    {
        let (value, len) = match read_unsigned(self.bytes) {
            Ok(read) => read,
            Err(code) => return Err(self.refuse(code)),
        };
        self.pass(len);
        Ok(value)
    }

    #[tactic(auto, unfolding(crate::specs::Front::address_at, crate::specs::Front::fixed_at))]
    #[inline(always)]
    fn read_address(&mut self) -> Result<u64, Refusal>
        ensures { Reads (λ v. v) result self.old (address_at self.old) self.new }
    {
        let n = usize::from(self.target.size.byte_count());
        if self.bytes.len() < n {
            return Err(self.refuse(Code::Truncated));
        }
        let number = word_in(self.target.order, self.bytes, n);
        self.pass(n);
        Ok(number)
    }

    /// An address, as wide as the target's. `Truncated` at its first byte where fewer bytes are left.
    #[inline(always)]
    pub fn address(&mut self) -> Result<u64, Refusal>
        ensures found { IfOk result (λ v. (b : List ℕ) × Address self.old.target v b × Takes self.old b self.new) }
        ensures only { (v : ℕ) (b rest : List ℕ) → Address self.old.target v b → self.old.bytes ≡ b ++ rest → result ≡ Ok v }
        ensures exact { Reads (λ v. v) result self.old (address_at self.old) self.new }
    {
        are_bytes(self.bytes);
        self.read_address()
    }

    #[inline(always)]
    fn refuse(&self, code: Code) -> Refusal
        ensures { result ≡ record { code = code; at = self.now.at } }
    {
        Refusal {
            code,
            at: self.at(),
        }
    }

    #[tactic(auto, unfolding(crate::specs::Front::unit_length_at))]
    #[inline(always)]
    fn read_unit_length(&mut self) -> Result<UnitLength, Refusal>
        ensures { Reads (λ v. v) result self.old (unit_length_at self.old) self.new }
    {
        if self.bytes.len() < 4 {
            return Err(self.refuse(Code::Truncated));
        }
        let length = four_in(self.target.order, self.bytes);
        if length < 0xffff_fff0 {
            self.pass(4);
            return Ok(UnitLength {
                form: Form::Dwarf32,
                length,
            });
        }
        if length != 0xffff_ffff {
            return Err(self.refuse(Code::ReservedLength));
        }
        if self.bytes.len() < 12 {
            return Err(self.refuse(Code::Truncated));
        }
        let length = eight_in(self.target.order, &self.bytes[4..]);
        self.pass(12);
        Ok(UnitLength {
            form: Form::Dwarf64,
            length,
        })
    }

    /// The length at the front of an entry (7.4). `Truncated` at its first byte where it runs out, also behind
    /// the four bytes that announce the 64-bit form; `ReservedLength` there from 0xfffffff0 to 0xfffffffe.
    #[inline(always)]
    pub fn unit_length(&mut self) -> Result<UnitLength, Refusal>
        ensures found { IfOk result (λ u. (b : List ℕ) × SpellsLength self.old.target.order u b × Takes self.old b self.new) }
        ensures only { (u : UnitLength) (b rest : List ℕ) → SpellsLength self.old.target.order u b → self.old.bytes ≡ b ++ rest → result ≡ Ok u }
        ensures exact { Reads (λ v. v) result self.old (unit_length_at self.old) self.new }
    {
        are_bytes(self.bytes);
        self.read_unit_length()
    }

    /// An unsigned LEB128 number, of any number of bytes (7.6). `Truncated` at its first byte where it does
    /// not end, `NumberTooLarge` there where it does not fit 64 bits.
    #[inline(always)]
    pub fn uleb(&mut self) -> Result<u64, Refusal>
        ensures found { IfOk result (λ v. (b : List ℕ) × Uleb v b × Takes self.old b self.new) }
        ensures only { (v : ℕ) (b rest : List ℕ) → Uleb v b → self.old.bytes ≡ b ++ rest → result ≡ Ok v }
        ensures exact { Reads (λ v. v) result self.old (uleb_at self.old) self.new }
    {
        are_bytes(self.bytes);
        self.read_uleb()
    }

    #[tactic(auto, unfolding(crate::specs::Front::register_at, crate::specs::Front::uleb_at))]
    #[inline(always)]
    fn read_register(&mut self) -> Result<u16, Refusal>
        ensures { Reads (λ r. r) result self.old (register_at self.old) self.new }
    {
        let (value, len) = match read_unsigned(self.bytes) {
            Ok(read) => read,
            Err(code) => return Err(self.refuse(code)),
        };
        if value > LAST_REGISTER {
            return Err(self.refuse(Code::RegisterTooLarge));
        }
        self.pass(len);
        Ok(value as u16)
    }

    /// The number of a register, 0 to 65,535, as an unsigned LEB128 number. `RegisterTooLarge` at its first byte above that, and the faults of `uleb`.
    #[inline(always)]
    pub fn register(&mut self) -> Result<u16, Refusal>
        ensures found { IfOk result (λ r. (b : List ℕ) × Register r b × Takes self.old b self.new) }
        ensures only { (r : ℕ) (b rest : List ℕ) → Register r b → self.old.bytes ≡ b ++ rest → result ≡ Ok r }
        ensures exact { Reads (λ r. r) result self.old (register_at self.old) self.new }
    {
        are_bytes(self.bytes);
        self.read_register()
    }

    #[tactic(auto, unfolding(crate::specs::Front::sleb_at))]
    #[inline(always)]
    fn read_sleb(&mut self) -> Result<i64, Refusal>
        ensures { Reads (λ v. v) result self.old (sleb_at self.old) self.new }
    {
        let (value, len) = match read_signed(self.bytes) {
            Ok(read) => read,
            Err(code) => return Err(self.refuse(code)),
        };
        self.pass(len);
        Ok(value)
    }

    /// A signed LEB128 number, of any number of bytes (7.6). `Truncated` at its first byte where it does not
    /// end, `NumberTooLarge` there where it does not fit 64 signed bits.
    #[inline(always)]
    pub fn sleb(&mut self) -> Result<i64, Refusal>
        ensures found { IfOk result (λ v. (b : List ℕ) × Sleb v b × Takes self.old b self.new) }
        ensures only { (v : ℤ) (b rest : List ℕ) → Sleb v b → self.old.bytes ≡ b ++ rest → result ≡ Ok v }
        ensures exact { Reads (λ v. v) result self.old (sleb_at self.old) self.new }
    {
        are_bytes(self.bytes);
        self.read_sleb()
    }
}
