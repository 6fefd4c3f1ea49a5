//! What rows have in common (6.4.1): the registers that are left of one row's where another one is asked of each.

ghost use Rattle.std.specs.{Prelude.{◌≡◌, ℕ}, List.filter};
ghost use Rattle.dw_row.specs.{Agreement.{InCommon, IsAgreed, is_kept}, Rows.{AreSpecified, rule}, Inner.Entries.{entries_of, EntriesSo, LeavesBelow}};
ghost use Rattle.dw_row.specs.declared.rule.{CfaRule.TheVariants.Unset, RegRule.TheVariants.Unspecified};

use crate::entries::Entries;
use crate::row::Row;
use crate::rule::CfaRule;

impl<'a> Entries<'a> {
    // Takes those out that may have slots and that others leave Unspecified.
    #[tactic(auto, using(crate::proofs::Lent::Narrowed::both_hold, crate::proofs::Lent::Narrowed::kept_below))]
    #[inline(always)]
    fn keep_near(&mut self, others: &Entries<'_>)
        requires so { EntriesSo self.old }
        requires others { EntriesSo others.now }
        ensures rules { LeavesBelow (is_kept (entries_of others.now)) 128 (entries_of self.old) (entries_of self.new) }
        ensures so { EntriesSo self.new }
    {
        self.used &= others.used;
    }

    // Takes those out that others leave Unspecified.
    pub(crate) fn keep(&mut self, others: &Entries<'_>)
        requires so { EntriesSo self.old }
        requires others { EntriesSo others.now }
        ensures entries { entries_of self.new ≡ filter (is_kept (entries_of others.now)) (entries_of self.old) }
        ensures so { EntriesSo self.new }
    {
        self.keep_near(others);
        self.far
            .retain(|register, _| others.rule(*register).is_specified());
    }
}

// Drops the registers to which another row gives another rule.
#[tactic(auto, using(crate::proofs::RegisterSets::all_agreed))]
fn agree_registers(row: &mut Row<'_>, other: &Row<'_>)
    ensures cfa { row.new.cfa ≡ row.old.cfa }
    ensures rules { (r : ℕ) → InCommon Unspecified (rule row.old r) (rule other.now r) (rule row.new r) }
    ensures listed { AreSpecified 0 row.new.registers }
{
    let mut behind = None;
    'registers: while let Some(register) = row.next_difference(other, behind) {
        row.drop_register(register);
        behind = Some(register);
    }
}

/// Unsets the CFA's rule, if another row has another one.
pub(crate) fn agree_cfa(row: &mut Row<'_>, other: &Row<'_>)
    ensures cfa { InCommon Unset row.old.cfa other.now.cfa row.new.cfa }
    ensures registers { row.new.registers ≡ row.old.registers }
{
    if !row.cfa_rule().is_same(other.cfa_rule()) {
        row.set_cfa(CfaRule::Unset);
    }
}

impl<'a> Row<'a> {
    /// Keeps what another row has too: the CFA's rule, and the registers with their rules. Takes no memory.
    pub fn agree(&mut self, other: &Row<'_>)
        ensures { IsAgreed self.old other.now self.new }
    {
        agree_registers(self, other);
        agree_cfa(self, other);
    }
}
