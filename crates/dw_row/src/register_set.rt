//! Sets of registers (6.4.1).

ghost use Rattle.std.specs.Prelude.{◌≡◌, ◌||◌, ◌≤◌, ◌<◌, ℕ, false, true, nat_eq, IsOk, OnOk, OnErr};
ghost use Rattle.dw_row.specs.{RegisterSets.has, Rows.AreSpecified, Inner.Among.in_tree};

use crate::entries::NEAR;
use crate::near_slots::bit_of;
use crate::rule::RegRule;
use crate::tree::set_in_tree;
use std::alloc::{AllocError, Global};
use std::collections::BTreeMap;
use std::marker::Model;

/// A set of registers, by their numbers. A contract sees which are in it.
#[derive(Drop)]
pub struct RegisterSet<'a> {
    // Those below 128 in a mask, and the others in a tree, where each has a rule of no meaning.
    pub(crate) near: u128,
    pub(crate) far: BTreeMap<u16, RegRule<'a>>,
}

impl<'a> Model for RegisterSet<'a> {
    ghost use Rattle.dw_row.specs.{RegisterSets.Registers, Rows.AreSpecified};

    ghost Value = { Registers };

    ghost view = { λ s. record { near = s.near; far = s.far.entries } };

    ghost invariant = { λ s. AreSpecified 128 s.far.entries };
}

impl<'a> RegisterSet<'a> {
    /// The set of none. Takes no memory.
    #[tactic(auto, using(crate::proofs::RegisterSets::none_in))]
    pub fn new(alloc: Global) -> RegisterSet<'a>
        ensures { (r : ℕ) → has result r ≡ false }
    {
        RegisterSet {
            near: 0,
            far: BTreeMap::new(alloc),
        }
    }

    /// Takes all out. Takes no memory.
    #[inline(always)]
    #[tactic(auto, using(crate::proofs::RegisterSets::none_in))]
    pub fn clear(&mut self)
        ensures { (r : ℕ) → has self.new r ≡ false }
    {
        self.near = 0;
        if !self.far.is_empty() {
            self.far.clear();
        }
    }

    #[inline(never)]
    #[tactic(auto, using(crate::proofs::Slots::put_so, crate::proofs::Lent::RowLists::lower, crate::proofs::Marked::far_added))]
    fn add_far(&mut self, register: u16) -> Result<(), AllocError>
        requires { 128 ≤ register }
        ensures added { OnOk result ((r : ℕ) → has self.new r ≡ (nat_eq r register || has self.old r)) }
        ensures same { OnErr result (self.new ≡ self.old) }
    {
        set_in_tree(&mut self.far, register, RegRule::SameValue)
    }

    /// Puts a register in, or answers want of memory: one below 128 takes none.
    #[inline(always)]
    #[tactic(auto, using(crate::proofs::Marked::near_added))]
    pub fn add(&mut self, register: u16) -> Result<(), AllocError>
        ensures added { OnOk result ((r : ℕ) → has self.new r ≡ (nat_eq r register || has self.old r)) }
        ensures same { OnErr result (self.new ≡ self.old) }
        ensures near { register < 128 → IsOk result }
    {
        if register >= NEAR {
            return self.add_far(register);
        }
        self.near |= bit_of(register);
        Ok(())
    }

    // Puts the registers in a tree in.
    #[tactic(auto, using(crate::proofs::Words::err_from_is_err_and, crate::proofs::RegisterSets::none_else))]
    fn add_each(&mut self, far: &BTreeMap<u16, RegRule<'_>>) -> Result<(), AllocError>
        requires { AreSpecified 128 far.now.entries }
        ensures added { OnOk result ((r : ℕ) → has self.new r ≡ (in_tree far.now.entries r || has self.old r)) }
        ensures more { OnErr result ((r : ℕ) → has self.old r ≡ true → has self.new r ≡ true) }
        ensures others { OnErr result ((r : ℕ) → has self.new r ≡ true → (in_tree far.now.entries r || has self.old r) ≡ true) }
    {
        let mut others = far.iter();
        'registers: while let Some((register, _)) = others.next() {
            self.add(*register)?;
        }
        Ok(())
    }

    /// Puts the registers of another set in, or answers want of memory. Behind that some of them may be in, no other register is
    /// new, and none that was in is out.
    #[inline(always)]
    pub fn add_all(&mut self, other: &RegisterSet<'_>) -> Result<(), AllocError>
        ensures added { OnOk result ((r : ℕ) → has self.new r ≡ (has other.now r || has self.old r)) }
        ensures more { OnErr result ((r : ℕ) → has self.old r ≡ true → has self.new r ≡ true) }
        ensures others { OnErr result ((r : ℕ) → has self.new r ≡ true → (has other.now r || has self.old r) ≡ true) }
    {
        self.near |= other.near;
        self.add_each(&other.far)
    }
}
