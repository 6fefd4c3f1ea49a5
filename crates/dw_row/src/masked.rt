//! Registers of a mask that get the rules which others give them.

ghost use Rattle.std.specs.Prelude.{◌≡◌, false, IsTrue};
ghost use Rattle.dw_row.specs.Inner.{Difference.SameUnset, Entries.{EntriesSo, entries_of}, Among.CopiedUpTo};

use crate::entries::Entries;
use crate::near_slots::copy_slots;

impl<'a> Entries<'a> {
    // Gives the registers in a mask the rules that others give them, where all others below 128 have the same rules, if none is kept
    // beside a slot, and says whether that is so.
    #[inline(always)]
    pub(crate) fn copy_among(&mut self, others: &Entries<'a>, mask: u128) -> bool
        requires so { EntriesSo self.old }
        requires others { EntriesSo others.now }
        requires same { SameUnset mask (entries_of self.old) (entries_of others.now) }
        ensures copied { IsTrue result → CopiedUpTo 128 (entries_of others.now) (entries_of self.old) (entries_of self.new) }
        ensures so { EntriesSo self.new }
        ensures stays { result ≡ false → entries_of self.new ≡ entries_of self.old }
    {
        if !self.expressions.is_empty() || !others.expressions.is_empty() {
            return false;
        }
        copy_slots(&mut self.slots, &others.slots, others.used & mask);
        self.used = others.used;
        true
    }
}
