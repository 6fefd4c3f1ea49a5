//! Room for the registers of a caller's frame.

ghost use Rattle.std.specs.Prelude.{◌≡◌, [], ◌∷◌, ◌++◌, OnOk, length};
ghost use Rattle.dw_frame.specs.Inner.Room.{registers_in};

use std::alloc::{AllocError, Global};
use std::marker::Model;

/// Registers of the caller, ascending, each with its value, or None where it has none that can be recovered.
#[derive(Debug, Drop)]
pub struct FrameRegisters<'r> {
    values: &'r [(u16, Option<u64>)],
}

impl<'r> Model for FrameRegisters<'r> {
    ghost use Rattle.std.specs.Prelude.{List, Option, ℕ};

    ghost Value = { List (ℕ × Option ℕ) };

    ghost view = { λ r. r.values.now };
}

impl<'r> FrameRegisters<'r> {
    /// The registers in order with their values.
    pub fn values(&self) -> &'r [(u16, Option<u64>)]
        ensures { result.now ≡ self.now }
    {
        self.values
    }
}

/// Room for the registers of a caller's frame, of which 64 take no memory. It may be used again. A contract sees the registers in it.
// An array is cleared where it stands: a `SmallVec` is moved as it is made, at 460 instructions more for a frame.
#[derive(Drop)]
pub struct FrameRoom {
    near: [(u16, Option<u64>); 64],
    len: usize,
    more: Vec<(u16, Option<u64>)>,
}

impl Model for FrameRoom {
    ghost use Rattle.std.specs.Prelude.{List, Option, ℕ};
    ghost use Rattle.dw_frame.specs.Inner.Room.{RoomSo, registers_in};

    ghost Value = { List (ℕ × Option ℕ) };

    ghost view = { λ r. registers_in r.near r.len r.more.items };

    ghost invariant = { λ r. RoomSo r.near r.len r.more.items };
}

// Adds a register where the array is full.
#[inline(never)]
fn push_far(
    near: &[(u16, Option<u64>)],
    more: &mut Vec<(u16, Option<u64>)>,
    entry: (u16, Option<u64>),
) -> Result<(), AllocError>
    requires { length near.now ≡ 64 }
    ensures { OnOk result (registers_in near.now 64 more.new.items ≡ registers_in near.now 64 more.old.items ++ entry ∷ []) }
{
    if more.is_empty() {
        more.extend_from_slice(near)?;
    }
    more.push(entry)?;
    Ok(())
}

impl FrameRoom {
    /// Room with no register. Takes no memory.
    #[inline(always)]
    pub fn new(alloc: Global) -> FrameRoom
        ensures { result ≡ [] }
    {
        FrameRoom {
            near: [(0, None); 64],
            len: 0,
            more: Vec::new(alloc),
        }
    }

    pub(crate) fn clear(&mut self)
        ensures { self.new ≡ [] }
    {
        self.len = 0;
        self.more.clear();
    }

    #[inline(always)]
    pub(crate) fn push(&mut self, register: u16, value: Option<u64>) -> Result<(), AllocError>
        ensures { OnOk result (self.new ≡ self.old ++ (register, value) ∷ []) }
    {
        if self.len == self.near.len() {
            return push_far(&self.near, &mut self.more, (register, value));
        }
        self.near[self.len] = (register, value);
        self.len += 1;
        Ok(())
    }

    pub(crate) fn lent(&self) -> FrameRegisters<'_>
        ensures { result ≡ self.now }
    {
        let values = if self.more.is_empty() {
            &self.near[..self.len]
        } else {
            self.more.as_slice()
        };
        FrameRegisters { values }
    }
}
