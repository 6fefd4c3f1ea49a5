//! A text of many lines on its way to an output.

ghost use Rattle.std.specs.Prelude.{◌≡◌, ◌+◌, ◌++◌, ◌-◌, ◌*◌, ◌/◌, ◌%◌, ◌^◌, ◌<◌, ◌≤◌, ℕ, List, [], ◌∷◌, length, take};
ghost use Rattle.std.specs.Prelude.{codes, false, true, decimal, MatchResult, unsigned_abs, if◌then◌else◌, IfErr, IfOk, OnErr, OnOk, ◌⊎◌};
ghost use Rattle.std.specs.{Fmt.{digits, digit_glyph}, Int.{is_negative}, Io.KnownBytes.{Appends, Keeps}};
ghost use Rattle.dw_show.specs.{Answers.PrintsText, Inner.Room.Fills, declared.listing.TheConstants.{PIECE, ROOM}};
ghost use Rattle.dw_show.specs.Listing.{Adds, Breaks, Finishes, Stays, failures_of, output_of, put_in};

use crate::failure::Failure;
use dw_canon::{Sink, SinkFault};
use itoa::Buffer;
use std::alloc::Global;
use std::io::{ErrorKind, Write};

// How many bytes the output gets at once, or fewer.
const ROOM: usize = 8_192;

// How many bytes room is made for.
const PIECE: usize = 128;

const PAIRS: &[u8; 200] = b"0001020304050607080910111213141516171819202122232425262728293031323334\
3536373839404142434445464748495051525354555657585960616263646566676869\
707172737475767778798081828384858687888990919293949596979899";

const HEX_PAIRS: &[u8; 512] = b"\
000102030405060708090a0b0c0d0e0f101112131415161718191a1b1c1d1e1f202122232425262728292a2b2c2d2e2f303132333435363738393a3b3c3d3e3f\
404142434445464748494a4b4c4d4e4f505152535455565758595a5b5c5d5e5f606162636465666768696a6b6c6d6e6f707172737475767778797a7b7c7d7e7f\
808182838485868788898a8b8c8d8e8f909192939495969798999a9b9c9d9e9fa0a1a2a3a4a5a6a7a8a9aaabacadaeafb0b1b2b3b4b5b6b7b8b9babbbcbdbebf\
c0c1c2c3c4c5c6c7c8c9cacbcccdcecfd0d1d2d3d4d5d6d7d8d9dadbdcdddedfe0e1e2e3e4e5e6e7e8e9eaebecedeeeff0f1f2f3f4f5f6f7f8f9fafbfcfdfeff";

// A loop over a text that is known becomes a store or two; `copy_from_slice` asks first whether both overlap.
#[inline(always)]
fn copy(room: &mut [u8], text: &[u8])
    requires { length room.old ≡ length text.now }
    ensures { room.new ≡ text.now }
{
    for (i, byte) in text.iter().enumerate() {
        room[i] = *byte;
    }
}

// One write, tried again where a signal interrupts it, and how many bytes the output took: none where it fails.
fn write_once<W: Write>(out: &mut W, bytes: &[u8]) -> usize
    ensures most { result ≤ length bytes.now }
    ensures took { Appends (W.contents out.old) (W.contents out.new) (take result bytes.now) }
{
    for _ in 0..u64::MAX {
        match out.write(bytes) {
            Ok(n) => return n,
            Err(error) if error.kind() == ErrorKind::Interrupted => {}
            Err(_) => return 0,
        }
    }
    0
}

// Gives bytes to an output until it has all of them or fails, and answers how many it took.
fn write_front<W: Write>(out: &mut W, bytes: &[u8]) -> usize
    ensures most { result ≤ length bytes.now }
    ensures took { Appends (W.contents out.old) (W.contents out.new) (take result bytes.now) }
{
    let mut done = 0;
    'writes: while done < bytes.len() {
        let n = write_once(out, &bytes[done..]);
        if n == 0 {
            return done;
        }
        done += n;
    }
    done
}

// How many bytes stand behind the first one that is not zero.
#[inline(always)]
fn bytes_behind(number: u64) -> u32
    ensures few { result ≤ 7 }
    ensures below { number / 2 ^ (8 * result) < 256 }
    ensures some { (result ≡ 0) ⊎ (1 ≤ number / 2 ^ (8 * result)) }
{
    7 - (number.leading_zeros() / 8).min(7)
}

/// A text of many lines, which the output gets in long parts, since a write costs more than a line's bytes. What is put
/// goes into room that `make_room` made before. An output that failed gets no more.
#[derive(Drop)]
pub struct Listing<W: Write> {
    out: W,
    room: [u8; ROOM],
    len: usize,
    failed: bool,
}

impl<W: Write> Listing<W> {
    /// What is put goes to `out`.
    pub fn new(out: W) -> Listing<W>
        ensures out { result.out ≡ out }
        ensures empty { result.len ≡ 0 }
        ensures works { result.failed ≡ false }
    {
        Listing {
            out,
            room: [0; ROOM],
            len: 0,
            failed: false,
        }
    }

    /// The output, without what it was not given yet.
    pub fn into_inner(self) -> W
        ensures { result ≡ self.out }
    {
        self.out
    }

    // Gives the output what is left, and keeps of it what the output does not take.
    #[inline(never)]
    fn write_out(&mut self)
        ensures works { self.new.failed ≡ false → self.old.failed ≡ false }
        ensures empty { self.new.failed ≡ false → self.new.len ≡ 0 }
        ensures put { Keeps (put_in W.contents self.old) (put_in W.contents self.new) }
        ensures held { (gone : List ℕ) × (take self.old.len self.old.room ≡ gone ++ take self.new.len self.new.room) }
        // An output that failed gets no more.
        ensures stopped { self.old.failed ≡ true → self.new ≡ self.old }
    {
        if self.failed {
            return;
        }
        // No more than all, which no clause says between two calls.
        let len = self.len.min(ROOM);
        let done = write_front(&mut self.out, &self.room[..len]);
        self.room.copy_within(done..len, 0);
        self.len = len - done;
        self.failed = done < len;
    }

    /// Makes room for 128 bytes.
    #[inline(always)]
    pub(crate) fn make_room(&mut self)
        ensures made { self.new.len + PIECE ≤ ROOM }
        ensures stays { Stays W.contents self.old self.new }
        // Where there is room, nothing changes.
        ensures same { self.old.len + PIECE ≤ ROOM → self.new ≡ self.old }
    {
        if self.len > ROOM - PIECE {
            self.write_out();
            self.len = 0;
        }
    }

    /// Whether the output failed.
    pub(crate) fn check(&self) -> Result<(), Failure<'static>>
        ensures { MatchResult result (λ _. self.now.failed ≡ false) (Breaks self.now) }
    {
        if self.failed {
            return Err(Failure::CannotWrite);
        }
        Ok(())
    }

    /// Writes out what is left, and flushes the output.
    pub fn finish(&mut self) -> Result<(), Failure<'static>>
        ensures ends { Finishes W.contents self.old self.new result }
        // What was put stays: the output gets what is left, or as much of it as it takes.
        ensures put { Keeps (put_in W.contents self.old) (put_in W.contents self.new) }
    {
        self.write_out();
        self.check()?;
        self.failed = self.out.flush().is_err();
        self.check()
    }

    /// These bytes, at most as many as are left of the room that `make_room` made.
    #[tactic(auto, using(crate::proofs::Puts::in_room, crate::proofs::Puts::filled))]
    #[inline(always)]
    pub(crate) fn text(&mut self, text: &[u8])
        requires { self.old.len + length text.now ≤ ROOM }
        ensures len { self.new.len ≡ self.old.len + length text.now }
        ensures fills { Fills self.old self.new (text.now) }
        ensures adds { Adds W.contents self.old self.new (text.now) }
    {
        let end = self.len + text.len();
        copy(&mut self.room[self.len..end], text);
        self.len = end;
    }

    // Bytes that only a run tells, copied at once.
    fn block(&mut self, bytes: &[u8])
        requires { self.old.len + length bytes.now ≤ ROOM }
        ensures len { self.new.len ≡ self.old.len + length bytes.now }
        ensures fills { Fills self.old self.new (bytes.now) }
    {
        let end = self.len + bytes.len();
        self.room[self.len..end].copy_from_slice(bytes);
        self.len = end;
    }

    #[inline(always)]
    fn pair(&mut self, number: usize)
        requires room { self.old.len + 2 ≤ ROOM }
        requires below { number < 100 }
        ensures len { self.new.len ≡ self.old.len + 2 }
        ensures fills { Fills self.old self.new ((48 + number / 10) ∷ (48 + number % 10) ∷ []) }
    {
        self.text(&[PAIRS[2 * number], PAIRS[2 * number + 1]]);
    }

    /// A number in decimal digits. Takes up to 40 bytes of room, which must be left.
    #[tactic(auto, using(crate::proofs::Puts::in_room, crate::proofs::Puts::filled))]
    #[inline(always)]
    pub(crate) fn decimal(&mut self, number: u64)
        requires { self.old.len + 40 ≤ ROOM }
        ensures len { self.new.len ≤ self.old.len + 40 }
        ensures fills { Fills self.old self.new (decimal number) }
        ensures adds { Adds W.contents self.old self.new (decimal number) }
    {
        if number < 10 {
            self.text(&[b'0' + number as u8]);
        } else if number < 100 {
            self.pair(number as usize);
        } else if number < 1000 {
            self.text(&[b'0' + (number / 100) as u8]);
            self.pair((number % 100) as usize);
        } else {
            self.long_decimal(number);
        }
    }

    #[inline(never)]
    fn long_decimal(&mut self, number: u64)
        requires { self.old.len + 40 ≤ ROOM }
        ensures len { self.new.len ≤ self.old.len + 40 }
        ensures fills { Fills self.old self.new (decimal number) }
    {
        let mut digits = Buffer::new();
        self.text(digits.format(number).as_bytes());
    }

    /// An offset with its sign. Takes up to 41 bytes of room, which must be left.
    #[tactic(auto, using(crate::proofs::Puts::in_room, crate::proofs::Puts::filled))]
    #[inline(always)]
    pub(crate) fn offset(&mut self, offset: i64)
        requires { self.old.len + 41 ≤ ROOM }
        ensures len { self.new.len ≤ self.old.len + 41 }
        ensures fills { Fills self.old self.new ((if is_negative offset then codes "-" else codes "+") ++ decimal (unsigned_abs offset)) }
        ensures adds { Adds W.contents self.old self.new ((if is_negative offset then codes "-" else codes "+") ++ decimal (unsigned_abs offset)) }
    {
        self.text(if offset < 0 { b"-" } else { b"+" });
        self.decimal(offset.unsigned_abs());
    }

    #[inline(always)]
    fn hex_pair(&mut self, byte: u8)
        requires { self.old.len + 2 ≤ ROOM }
        ensures len { self.new.len ≡ self.old.len + 2 }
        ensures fills { Fills self.old self.new (digit_glyph false (byte / 16) ∷ digit_glyph false (byte % 16) ∷ []) }
    {
        let at = 2 * byte as usize;
        self.text(&[HEX_PAIRS[at], HEX_PAIRS[at + 1]]);
    }

    #[inline(always)]
    fn hex_byte(&mut self, byte: u8)
        requires { self.old.len + 2 ≤ ROOM }
        ensures len { self.new.len ≤ self.old.len + 2 }
        ensures fills { Fills self.old self.new (digits 16 false byte) }
    {
        if byte < 16 {
            self.text(&[HEX_PAIRS[2 * byte as usize + 1]]);
        } else {
            self.hex_pair(byte);
        }
    }

    /// A number in hexadecimal digits, without leading zeros. Takes up to 16 bytes of room, which must be left.
    #[tactic(auto, using(crate::proofs::Puts::in_room, crate::proofs::Puts::filled))]
    pub(crate) fn hex(&mut self, number: u64)
        requires { self.old.len + 16 ≤ ROOM }
        ensures len { self.new.len ≤ self.old.len + 16 }
        ensures fills { Fills self.old self.new (digits 16 false number) }
        ensures adds { Adds W.contents self.old self.new (digits 16 false number) }
    {
        let mut left = bytes_behind(number);
        self.hex_byte((number >> (8 * left)) as u8);
        'bytes: while left > 0 {
            left -= 1;
            self.hex_pair(((number >> (8 * left)) % 256) as u8);
        }
    }

    /// An address or the end of a range, of up to 2 ^ 64, in hexadecimal digits, without leading zeros. Takes up to 17 bytes of room, which must be left.
    #[tactic(auto, using(crate::proofs::Puts::in_room, crate::proofs::Puts::filled))]
    #[inline(always)]
    pub(crate) fn address(&mut self, address: u128)
        requires { self.old.len + 17 ≤ ROOM }
        ensures len { self.new.len ≤ self.old.len + 17 }
        ensures fills { address ≤ 2 ^ 64 → Fills self.old self.new (digits 16 false address) }
        ensures adds { address ≤ 2 ^ 64 → Adds W.contents self.old self.new (digits 16 false address) }
    {
        match u64::try_from(address) {
            Ok(number) => self.hex(number),
            Err(_) => self.text(b"10000000000000000"),
        }
    }

    /// Bytes of any number.
    pub(crate) fn long_text(&mut self, text: &[u8])
        ensures adds { Adds W.contents self.old self.new (text.now) }
        ensures fits { self.old.len ≤ ROOM → self.new.len ≤ ROOM }
    {
        let mut done = 0;
        'pieces: while done < text.len() {
            self.make_room();
            let end = text.len().min(done + PIECE);
            self.block(&text[done..end]);
            done = end;
        }
    }
}

/// A normal form is put like any text.
impl<W: Write> Sink for Listing<W> {
    ghost taken = { λ listing. put_in W.contents listing };

    ghost failures = { λ listing. failures_of listing.failed };

    fn put(&mut self, bytes: &[u8]) -> Result<usize, SinkFault>
        requires some { 0 < length bytes.now }
        requires room { failures_of self.old.failed < 2 ^ 64 - 1 }
        // It is put behind what was put before.
        ensures took { IfOk result (λ n. (1 ≤ n) × (n ≤ length bytes.now) × (failures_of self.new.failed ≡ failures_of self.old.failed)
            × Appends (put_in W.contents self.old) (put_in W.contents self.new) (take n bytes.now)) }
        ensures fault { IfErr result (λ _. (failures_of self.old.failed < failures_of self.new.failed)
            × Keeps (put_in W.contents self.old) (put_in W.contents self.new)) }
        ensures fits { OnOk result (self.new.len ≤ ROOM) }
        // Where the output fails, the room is full, and what the output did not take stays.
        ensures full { OnErr result (ROOM < self.old.len + PIECE) }
        ensures held { IfErr result (λ _. (gone : List ℕ) × (take self.old.len self.old.room ≡ gone ++ take self.new.len self.new.room)) }
    {
        if self.len > ROOM - PIECE {
            self.write_out();
        }
        if self.failed {
            return Err(SinkFault);
        }
        let part = &bytes[..bytes.len().min(PIECE)];
        self.block(part);
        Ok(part.len())
    }
}

/// Prints a text that is asked for, of help or of the version.
pub fn put_help<W: Write>(
    alloc: Global,
    text: clap::Error,
    out: &mut Listing<W>,
) -> Result<u8, Failure<'static>>
    requires works { out.old.failed ≡ false }
    ensures { PrintsText (output_of W.contents out.old) (output_of W.contents out.new) 0 result }
{
    let text = format!(in alloc; "{text}")?;
    out.long_text(text.as_bytes());
    out.finish().map(|()| 0)
}
