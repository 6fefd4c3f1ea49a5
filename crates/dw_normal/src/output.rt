//! Bytes on their way to a sink: an entry is built, and put with its length. Or its bytes are counted alone, and forgotten piece by piece.

ghost use Rattle.std.specs.Prelude.{◌≡◌, ℕ, ◌+◌, ◌-◌, ◌<◌, ◌≤◌, ◌^◌, ◌++◌, List, false, length, replicate, IfOk, IfErr};
ghost use Rattle.dw_num.specs.Fixed.{fixed_bytes};
ghost use Rattle.dw_canon.specs.Written.{missing};
ghost use Rattle.dw_normal.specs.{declared.output.Stop.TheVariants.{Full, Memory}, Inner.Puts.{Fills, Holds, Puts, SameRoom, SinksHeld, sink_at}};

use crate::contents::write_number;
use dw_canon::Sink;
use dw_num::{Order, Size};
use std::alloc::{AllocError, Global};

/// Why bytes were not put to their end: there is no room for all, the sink failed, or memory ran out.
#[derive(Clone, Copy)]
pub(crate) enum Stop {
    Full,
    Failed,
    Memory,
}

impl From<AllocError> for Stop {
    ghost from_gives = { λ _ e. e ≡ Memory };

    fn from(_error: AllocError) -> Stop {
        Stop::Memory
    }
}

/// An entry with room for its length, of which so many bytes are gone if bytes are counted alone; and how many may still go out.
#[derive(Drop)]
pub(crate) struct Output {
    pub(crate) bytes: Vec<u8>,
    pub(crate) gone: u64,
    pub(crate) room: u64,
    pub(crate) counts: bool,
}

// How long so many bytes are with their nops. With the width in each case there is no division.
#[inline(always)]
#[tactic(auto, using(crate::proofs::NopsLeft::up_to_four, crate::proofs::NopsLeft::up_to_eight))]
fn filled_len(len: u64, size: Size) -> u64
    requires { len + 8 < 2 ^ 64 }
    ensures { result ≡ len + missing size len }
{
    match size {
        Size::Four => (len + 3) / 4 * 4,
        Size::Eight => (len + 7) / 8 * 8,
    }
}

impl Output {
    /// Nothing went out. Takes no memory.
    pub(crate) fn new(alloc: Global, room: u64, counts: bool) -> Output
        ensures room { result.room ≡ room }
        ensures counts { result.counts ≡ counts }
    {
        Output {
            bytes: Vec::new(alloc),
            gone: 0,
            room,
            counts,
        }
    }

    // How long the entry is by now, where there is room for it.
    #[inline(always)]
    fn len(&self) -> Result<u64, Stop>
        requires { self.now.gone ≤ self.now.room }
        ensures fits { IfOk result (λ n. (n ≡ self.now.gone + length self.now.bytes.items) × (n ≤ self.now.room)) }
        ensures full { IfErr result (λ e. (e ≡ Full) × (self.now.room < self.now.gone + length self.now.bytes.items)) }
    {
        let len = self.bytes.len() as u64;
        if len > self.room - self.gone {
            return Err(Stop::Full);
        }
        Ok(self.gone + len)
    }

    /// Forgets what there is of the entry, where that is counted alone.
    pub(crate) fn let_go(&mut self) -> Result<(), Stop>
        requires { self.old.gone ≤ self.old.room }
        ensures holds { (front : List ℕ) → Holds self.old front → Fills front result self.old self.new }
        ensures room { SameRoom self.old self.new }
    {
        let len = self.len()?;
        if !self.counts {
            return Ok(());
        }
        self.gone = len;
        self.bytes.clear();
        Ok(())
    }

    /// Appends the nops that fill the entry up to a multiple of the address size: as many as there may be, of which what is not missing goes.
    #[inline(always)]
    pub(crate) fn push_nops(&mut self, size: Size) -> Result<(), Stop>
        requires within { self.old.gone ≤ self.old.room }
        requires room { self.old.room ≤ 2147483647 }
        ensures holds { (front : List ℕ) → Holds self.old front → Fills (front ++ replicate (missing size (length front)) 0) result self.old self.new }
        ensures room { SameRoom self.old self.new }
    {
        let len = self.len()?;
        self.bytes.extend_from_slice(&[0; 8])?;
        self.bytes
            .truncate((filled_len(len, size) - self.gone) as usize);
        Ok(())
    }
}

// Puts all bytes into a sink, for which there is room.
fn put_bytes<S: Sink>(sink: &mut S, bytes: &[u8], room: &mut u64) -> Result<(), Stop>
    requires failures { S.failures sink.old < 2 ^ 64 - 1 }
    requires room { length bytes.now ≤ room.old }
    ensures { Puts false bytes.now result (sink_at S.failures S.taken room.old sink.old) (sink_at S.failures S.taken room.new sink.new) }
{
    let mut done = 0;
    'bytes: while done < bytes.len() {
        let Ok(n) = sink.put(&bytes[done..]) else {
            return Err(Stop::Failed);
        };
        done += n;
        *room -= n as u64;
    }
    Ok(())
}

/// Gives the entry its length and puts it, or counts it, where there is room for it.
#[inline(always)]
pub(crate) fn put_entry<S: Sink>(sink: &mut S, out: &mut Output, order: Order) -> Result<(), Stop>
    requires failures { S.failures sink.old < 2 ^ 64 - 1 }
    requires room { out.old.room ≤ 2147483647 }
    requires holds { (contents : List ℕ) × Holds out.old (fixed_bytes order 4 0 ++ contents) }
    ensures puts { SinksHeld S.failures S.taken order result out.old out.new sink.old sink.new }
    ensures counts { out.new.counts ≡ out.old.counts }
{
    let len = out.len()?;
    if out.counts {
        out.room -= len;
        return Ok(());
    }
    write_number(&mut out.bytes, order, Size::Four, len - 4);
    put_bytes(sink, &out.bytes, &mut out.room)
}
