//! Rows of rules (6.4.1).

ghost use Rattle.std.specs.Prelude.{◌≡◌, ◌<◌, ◌≤◌, ℕ, ℤ, ◌∷◌, IfOk, IsOk, OnOk, OnErr, MatchOption};
ghost use Rattle.std.specs.Prelude.{IsTrue, ◌↔◌, false};
ghost use Rattle.dw_row.specs.InPlace.{IsInPlace};
ghost use Rattle.std.specs.{Int.bit_at, Iterator.{YieldsFirst, item_count}};
ghost use Rattle.dw_row.specs.{Agreement.{kept, without}, Difference.{FirstDifference, place_behind}};
ghost use Rattle.dw_row.specs.{RegisterSets.SpecifiesIn, Rows.{AreSpecified, BeginsWithOffset, is_specified, rule, rule_in, blank, with_cfa, with_rule}};
ghost use Rattle.dw_row.specs.declared.rule.RegRule.TheVariants.{Offset, Unspecified};

use crate::behind::place_behind;
use crate::entries::{Entries, NEAR};
use crate::near_slots::{next_in, without_first};
use crate::rule::{CfaRule, RegRule};
use crate::slot::{Slot, Slots, offset_in, rule_of};
use crate::tree::{next_in_tree, set_in_tree};
use std::alloc::{AllocError, Global};
use std::collections::BTreeMap;
use std::marker::Model;

/// The rules at an address, a row of the table of 6.4.1: how the canonical frame address and the registers of the caller are found. A
/// contract sees the CFA's rule and the registers that are not Unspecified, ascending, with theirs.
#[derive(Drop)]
pub struct Row<'a> {
    cfa: CfaRule<'a>,
    pub(crate) entries: Entries<'a>,
    alloc: Global,
}

impl<'a> Model for Row<'a> {
    ghost use Rattle.dw_row.specs.{Rows.Rules, Inner.Entries.{entries_of, EntriesSo}};

    ghost Value = { Rules };

    ghost view = { λ r. record { cfa = r.cfa; registers = entries_of r.entries } };

    ghost invariant = { λ r. EntriesSo r.entries };
}

impl<'a> Clone for Row<'a> {
    ghost use Rattle.std.specs.Prelude.{◌≡◌};

    ghost is_clone = { λ row copy. copy ≡ row };

    ghost is_infallible = { λ _. ⊥ };

    fn clone(&self) -> Result<Row<'a>, AllocError> {
        self.copied()
    }
}

/// An iterator over the registers that a row specifies, ascending, with their rules. Takes no memory.
#[derive(Drop)]
pub struct Specified<'r, 'a> {
    pub(crate) slots: &'r Slots,
    pub(crate) used: u128,
    pub(crate) expressions: &'r BTreeMap<u16, RegRule<'a>>,
    pub(crate) far: &'r BTreeMap<u16, RegRule<'a>>,
    // The register of the tree that was answered last. An iterator over the tree takes 100 bytes more, which each caller clears.
    pub(crate) last: Option<u16>,
}

impl<'r, 'a> Model for Specified<'r, 'a> {
    ghost use Rattle.std.specs.Prelude.{List, ℕ};
    ghost use Rattle.dw_row.specs.{Rows.AreSpecified, declared.rule.RegRule.{RegRule as Rule}};
    ghost use Rattle.dw_row.specs.Inner.Entries.{far_behind, listed_near, HasRoom, Holds, NoneHasSlot};

    ghost Value = { List (ℕ × Rule) };

    ghost view = { λ s. listed_near 0 s.used s.slots.now s.expressions.now.entries (far_behind s.last s.far.now.entries) };

    ghost invariant = { λ s. HasRoom s.slots.now × Holds s.used s.slots.now s.expressions.now.entries
        × AreSpecified 128 s.far.now.entries × NoneHasSlot s.expressions.now.entries };
}

impl<'r, 'a> Specified<'r, 'a> {
    /// The next register with its offset, where it is below 128 and its rule an `Offset`; else none, and it stays.
    #[inline(always)]
    pub fn next_offset(&mut self) -> Option<(u16, i64)>
        ensures next { MatchOption result (self.new ≡ self.old) (λ found. self.old ≡ (found.0, Offset found.1) ∷ self.new) }
        ensures exact { MatchOption result (BeginsWithOffset self.old → ⊥) (λ _. BeginsWithOffset self.old) }
    {
        let register = next_in(self.used, 0)? as u16;
        let offset = offset_in(self.slots.get(register))?;
        self.used = without_first(self.used);
        Some((register, offset))
    }
}

impl<'r, 'a> Iterator for Specified<'r, 'a> {
    type Item = (u16, RegRule<'a>);

    ghost next_gives = { YieldsFirst (λ entries. entries) };

    ghost remaining = { item_count (λ entries. entries) };

    #[inline(always)]
    #[tactic(auto, using(crate::proofs::Slots::next_listed, crate::proofs::Difference::none_behind))]
    fn next(&mut self) -> Option<(u16, RegRule<'a>)> {
        if let Some(next) = next_in(self.used, 0) {
            let register = next as u16;
            let slot = self.slots.get(register);
            self.used = without_first(self.used);
            return Some((register, rule_of(slot, self.expressions, register)));
        }
        if self.far.is_empty() {
            return None;
        }
        let Some((register, rule)) = next_in_tree(self.far, self.last) else {
            return None;
        };
        self.last = Some(register);
        Some((register, rule))
    }
}

impl<'a> Row<'a> {
    /// A row in which nothing is set. Takes no memory.
    #[tactic(auto, using(crate::proofs::Slots::none_hold, crate::proofs::Slots::none_listed))]
    pub fn blank(alloc: Global) -> Row<'a>
        ensures { result ≡ blank }
    {
        let entries = Entries {
            slots: Slots {
                kinds: [Slot::Undefined; 128],
                numbers: [0; 128],
            },
            used: 0,
            expressions: BTreeMap::new(alloc),
            far: BTreeMap::new(alloc),
        };
        Row {
            cfa: CfaRule::Unset,
            entries,
            alloc,
        }
    }

    /// Takes out all that is set. Takes no memory.
    #[inline(always)]
    #[tactic(auto, using(crate::proofs::Slots::none_listed, crate::proofs::Slots::none_hold))]
    pub fn clear(&mut self)
        ensures { self.new ≡ blank }
    {
        self.cfa = CfaRule::Unset;
        self.entries.used = 0;
        if self.entries.is_narrow() {
            return;
        }
        self.entries.clear_trees();
    }

    /// The same row once more, or want of memory.
    pub fn copied(&self) -> Result<Row<'a>, AllocError>
        ensures { IfOk result (λ row. row ≡ self.now) }
    {
        let mut row = Row::blank(self.alloc);
        row.become_copy(self)?;
        Ok(row)
    }

    /// The CFA's rule.
    pub fn cfa(&self) -> CfaRule<'a>
        ensures { result ≡ self.now.cfa }
    {
        self.cfa.copied()
    }

    /// The CFA's rule, lent.
    #[inline(always)]
    pub fn cfa_rule(&self) -> &CfaRule<'a>
        ensures { result.now ≡ self.now.cfa }
    {
        &self.cfa
    }

    /// The rule of a register, Unspecified where no instruction has set it.
    #[inline(always)]
    pub fn rule(&self, register: u16) -> RegRule<'a>
        ensures { result ≡ rule self.now register }
    {
        self.entries.rule(register)
    }

    /// The offset from the CFA at which a register is saved, in bytes, where its rule is `Offset`, and else none (6.4.1). Takes no memory.
    #[inline(always)]
    pub fn offset_of(&self, register: u16) -> Option<i64>
        ensures { MatchOption result ((n : ℤ) → rule self.now register ≡ Offset n → ⊥) (λ n. rule self.now register ≡ Offset n) }
    {
        // Read from its slot where it has one, since a rule is moved about.
        if register < NEAR {
            return offset_in(self.entries.slot(register)?);
        }
        match self.rule(register) {
            RegRule::Offset(offset) => Some(offset),
            _ => None,
        }
    }

    /// Whether another row gives a register the same rule. Expressions are compared by their operations.
    #[inline(always)]
    pub fn has_same_rule(&self, other: &Row<'_>, register: u16) -> bool
        ensures { IsTrue result ↔ (rule self.now register ≡ rule other.now register) }
    {
        if register >= NEAR {
            return self.rule(register).is_same(&other.rule(register));
        }
        self.entries.has_same_near(&other.entries, register)
    }

    fn has_same_registers(&self, other: &Row<'_>) -> bool
        ensures { IsTrue result ↔ (self.now.registers ≡ other.now.registers) }
    {
        self.next_difference(other, None).is_none()
    }

    /// Whether both rows have the same rule in every column. Expressions are compared by their operations.
    pub fn is_same(&self, other: &Row<'_>) -> bool
        ensures { IsTrue result ↔ (self.now ≡ other.now) }
    {
        self.cfa.is_same(&other.cfa) && self.has_same_registers(other)
    }

    /// The least register to which another row gives another rule, of those behind a given one where there is such; or none. Takes no memory.
    #[tactic(auto, using(crate::proofs::Difference::first_of_all, crate::proofs::Difference::none_of_all, crate::proofs::Difference::unused))]
    pub fn next_difference(&self, other: &Row<'_>, behind: Option<u16>) -> Option<u16>
        ensures first { FirstDifference (place_behind behind) self.now.registers other.now.registers result }
        ensures ascending { AreSpecified 0 self.now.registers }
        ensures other_ascending { AreSpecified 0 other.now.registers }
    {
        self.ascends();
        other.ascends();
        let (entries, others) = (&self.entries, &other.entries);
        let mask = entries.used | others.used;
        if let Some(register) = entries.next_near_difference(others, mask, place_behind(behind)) {
            return Some(register);
        }
        if entries.far.is_empty() && others.far.is_empty() {
            return None;
        }
        entries.far_difference(others, behind)
    }

    /// Registers ascend. This does nothing.
    #[tactic(auto, using(crate::proofs::Slots::entries_ascend))]
    pub fn ascends(&self)
        ensures { AreSpecified 0 self.now.registers }
    {
        let _entries = &self.entries;
    }

    /// The registers that are not Unspecified, ascending, with their rules. Takes no memory.
    #[inline(always)]
    #[tactic(auto, using(crate::proofs::Difference::all_behind))]
    pub fn specified(&self) -> Specified<'_, 'a>
        ensures all { result ≡ self.now.registers }
        ensures ascending { AreSpecified 0 self.now.registers }
    {
        self.ascends();
        let entries = &self.entries;
        Specified {
            slots: &entries.slots,
            used: entries.used,
            expressions: &entries.expressions,
            far: &entries.far,
            last: None,
        }
    }

    /// Gives the CFA a rule.
    pub fn set_cfa(&mut self, cfa: CfaRule<'a>)
        ensures { self.new ≡ with_cfa cfa.entry self.old }
    {
        self.cfa = cfa;
    }

    /// Gives the CFA another offset from the same register (`DW_CFA_def_cfa_offset`, 6.4.2.2), where it is a register plus an offset, and tells whether it is.
    #[inline(always)]
    pub fn set_cfa_offset(&mut self, offset: i64) -> bool
        ensures set { IsTrue result → (r : ℕ) × (n : ℤ) × (self.old.cfa ≡ CfaRule.Register r n) × (self.new ≡ with_cfa (CfaRule.Register r offset) self.old) }
        ensures none { result ≡ false → ((r : ℕ) (n : ℤ) → self.old.cfa ≡ CfaRule.Register r n → ⊥) × (self.new ≡ self.old) }
    {
        let CfaRule::Register { offset: n, .. } = &mut self.cfa else {
            return false;
        };
        *n = offset;
        true
    }

    #[inline(always)]
    pub(crate) fn copy_cfa(&mut self, other: &Row<'a>)
        ensures { self.new ≡ with_cfa other.now.cfa self.old }
    {
        if let CfaRule::Register { register, offset } = other.cfa {
            self.cfa = CfaRule::Register { register, offset };
            return;
        }
        self.copy_other_cfa(other);
    }

    // The same of any rule. Out of line: room for a rule is cleared and moved at each row else.
    #[inline(never)]
    fn copy_other_cfa(&mut self, other: &Row<'a>)
        ensures { self.new ≡ with_cfa other.now.cfa self.old }
    {
        self.cfa = other.cfa.copied();
    }

    /// Gives a register a rule, or answers want of memory. Registers below 128 take none, but for
    /// rules with an expression.
    #[inline(always)]
    #[tactic(auto, using(crate::proofs::Slots::far_set, crate::proofs::Slots::put_so, crate::proofs::Lent::RowLists::lower))]
    pub fn set(&mut self, register: u16, rule: RegRule<'a>) -> Result<(), AllocError>
        ensures ok { OnOk result (self.new ≡ with_rule register rule.entry self.old) }
        ensures err { OnErr result (self.new ≡ self.old) }
        ensures in_place { IsInPlace register rule.entry → IsOk result }
    {
        if register < NEAR {
            return self.entries.set_near(register, rule);
        }
        set_in_tree(&mut self.entries.far, register, rule)
    }

    /// Leaves a register Unspecified (6.4.1). Takes no memory.
    #[tactic(auto, using(crate::proofs::Lent::Narrowed::put_out, crate::proofs::Slots::far_put, crate::proofs::WideRows::removed_is))]
    pub fn drop_register(&mut self, register: u16)
        ensures { self.new ≡ without register self.old }
    {
        if register < NEAR {
            return self.entries.drop_near(register);
        }
        self.entries.far.remove(&register);
    }

    // Gives a register below 128 the rule that another row gives it, or answers want of memory.
    #[inline(always)]
    pub(crate) fn copy_rule(&mut self, other: &Row<'a>, register: u16) -> Result<(), AllocError>
        requires { register < 128 }
        ensures ok { OnOk result (self.new ≡ with_rule register (rule_in other.now.registers register) self.old) }
        ensures err { OnErr result (self.new ≡ self.old) }
    {
        self.entries.copy_near(&other.entries, register)
    }

    /// Drops the registers that another row leaves Unspecified. Takes no memory.
    pub fn keep(&mut self, other: &Row<'_>)
        ensures { self.new ≡ kept self.old other.now }
    {
        self.entries.keep(&other.entries);
    }

    /// Whether it specifies every register that another row specifies. Takes no memory.
    #[tactic(auto, using(crate::proofs::Lent::Narrowed::first_dropped, crate::proofs::Lent::Narrowed::first_left))]
    pub fn specifies_all(&self, other: &Row<'_>) -> bool
        ensures { IsTrue result ↔ (kept other.now self.now ≡ other.now) }
    {
        for (register, _) in other.specified() {
            if !self.rule(register).is_specified() {
                return false;
            }
        }
        true
    }

    /// The registers below 128 that are specified, each with its bit.
    #[inline(always)]
    #[tactic(auto, using(crate::proofs::Slots::not_set, crate::proofs::Slots::is_given))]
    pub fn near_mask(&self) -> u128
        ensures none { SpecifiesIn result self.now }
        ensures all { (r : ℕ) → r < 128 → bit_at result r ≡ 1 → IsTrue (is_specified (rule self.now r)) }
    {
        self.entries.used
    }

    #[inline(always)]
    pub(crate) fn is_narrow(&self) -> bool {
        self.entries.is_narrow()
    }

    /// Whether it specifies a register from 128 on.
    #[tactic(auto, using(crate::proofs::Slots::first_far, crate::proofs::Slots::none_far))]
    pub fn is_wide(&self) -> bool
        ensures wide { IsTrue result → (r : ℕ) × (128 ≤ r) × IsTrue (is_specified (rule self.now r)) }
        ensures narrow { result ≡ false → (r : ℕ) → 128 ≤ r → rule self.now r ≡ Unspecified }
    {
        self.entries.far.len() > 0
    }
}
