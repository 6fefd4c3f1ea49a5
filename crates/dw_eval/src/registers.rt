//! Values of registers.

ghost use Rattle.std.specs.Prelude.{◌≡◌, ℕ, ◌+◌, ◌<◌, ◌≤◌, ◌==◌, Some, None, [], length, max, IsOk, OnOk, OnErr, if◌then◌else◌};
ghost use Rattle.dw_eval.specs.{Registers.held, Inner.Registers.{any_held, near_held, IsHeld}};

use std::alloc::{AllocError, Global};
use std::marker::Model;

// The registers below this have places of their own, for which no memory is taken.
const NEAR: usize = 128;

/// What registers hold. A register is found by its number at once. Those below 128 take no memory; the room that is
/// taken for others is that of all registers from 128 up to the greatest one that was set, at most 65,536.
#[derive(Drop)]
pub struct Registers {
    known: [bool; 128],
    values: [u64; 128],
    far: Vec<Option<u64>>,
    end: usize,
}

impl Model for Registers {
    ghost use Rattle.std.specs.Prelude.{List, Option, ℕ};
    ghost use Rattle.dw_eval.specs.Inner.Registers.{any_held, first_held, PlacesSo};

    ghost Value = { List (Option ℕ) };

    ghost view = { λ r. first_held (any_held r.known r.values r.far.items) r.end };

    ghost invariant = { λ r. PlacesSo r.known r.values r.far.items r.end };
}

// What a register holds that has no place.
fn far_value(far: &Vec<Option<u64>>, place: usize) -> Option<u64>
    ensures { result ≡ held far.now.items place }
{
    far.get(place).copied().flatten()
}

#[tactic(auto, unfolding(crate::specs::Inner::Registers::any_held))]
#[inline(always)]
fn value_of(
    known: &[bool; 128],
    values: &[u64; 128],
    far: &Vec<Option<u64>>,
    register: u16,
) -> Option<u64>
    requires known { length known.now ≡ 128 }
    requires values { length values.now ≡ 128 }
    ensures { result ≡ any_held known.now values.now far.now.items register }
{
    let index = usize::from(register);
    if index >= NEAR {
        return far_value(far, index - NEAR);
    }
    known[index].then_some(values[index])
}

// Lets a register that has a place hold a value.
#[inline(always)]
fn hold_near(known: &mut [bool; 128], values: &mut [u64; 128], index: usize, value: u64)
    requires known { length known.old ≡ 128 }
    requires values { length values.old ≡ 128 }
    requires near { index < 128 }
    ensures held { IsHeld index value (near_held known.old values.old) (near_held known.new values.new) }
    ensures known { length known.new ≡ 128 }
    ensures values { length values.new ≡ 128 }
{
    values[index] = value;
    known[index] = true;
}

fn hold_far(far: &mut Vec<Option<u64>>, place: usize, value: u64) -> Result<(), AllocError>
    requires { place < 65536 }
    ensures held { OnOk result (IsHeld place value (held far.old.items) (held far.new.items)) }
    ensures err { OnErr result (far.new.items ≡ far.old.items) }
{
    if place >= far.len() {
        far.resize(place + 1, None)?;
    }
    far[place] = Some(value);
    Ok(())
}

#[inline(always)]
fn hold(
    known: &mut [bool; 128],
    values: &mut [u64; 128],
    far: &mut Vec<Option<u64>>,
    register: u16,
    value: u64,
) -> Result<(), AllocError>
    requires known { length known.old ≡ 128 }
    requires values { length values.old ≡ 128 }
    ensures held { OnOk result (IsHeld register value (any_held known.old values.old far.old.items) (any_held known.new values.new far.new.items)) }
    ensures err { OnErr result ((known.new ≡ known.old) × (values.new ≡ values.old) × (far.new.items ≡ far.old.items)) }
    ensures known { length known.new ≡ 128 }
    ensures values { length values.new ≡ 128 }
    ensures near { register < 128 → IsOk result }
{
    let index = usize::from(register);
    if index < NEAR {
        hold_near(known, values, index, value);
        return Ok(());
    }
    hold_far(far, index - NEAR, value)?;
    Ok(())
}

// The end where a register holds a value too.
fn end_with(end: usize, register: u16) -> usize
    ensures { result ≡ max end (register + 1) }
{
    end.max(usize::from(register) + 1)
}

impl Registers {
    /// Registers that hold nothing. Takes no memory.
    pub fn new(alloc: Global) -> Registers
        ensures { result ≡ [] }
    {
        Registers {
            known: [false; 128],
            values: [0; 128],
            far: Vec::new(alloc),
            end: 0,
        }
    }

    /// What a register holds, None where it was never set. Takes no memory.
    pub fn get(&self, register: u16) -> Option<u64>
        ensures { result ≡ held self.now register }
    {
        value_of(&self.known, &self.values, &self.far, register)
    }

    /// Lets a register hold a value, in place of an older one. Takes no memory for one below 128. Where memory is refused all registers hold what they held.
    pub fn set(&mut self, register: u16, value: u64) -> Result<(), AllocError>
        ensures set { OnOk result ((r : ℕ) → held self.new r ≡ (if r == register then Some value else held self.old r)) }
        ensures end { OnOk result (length self.new ≡ max (length self.old) (register + 1)) }
        ensures err { OnErr result (self.new ≡ self.old) }
        ensures near { register < 128 → IsOk result }
    {
        hold(
            &mut self.known,
            &mut self.values,
            &mut self.far,
            register,
            value,
        )?;
        self.end = end_with(self.end, register);
        Ok(())
    }

    /// One more than the greatest register that was set, 0 where none was; at most 65,536.
    pub fn end(&self) -> usize
        ensures exact { result ≡ length self.now }
        ensures most { result ≤ 65536 }
        ensures beyond { (r : ℕ) → result ≤ r → held self.now r ≡ None }
    {
        self.end
    }
}
