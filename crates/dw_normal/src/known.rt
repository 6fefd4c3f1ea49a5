//! What is known of CIEs with long programs (6.4.1): how the row of a group stands to the rows that they leave. So an FDE's row at its
//! begin is compared with its group's by what its program set, and not by all registers of the CIE.

ghost use Rattle.std.specs.{Prelude.{◌≡◌, ℕ, None, Some, IfSome, OnOk}, BTreeMap.get, Ordering.nat_cmp};
ghost use Rattle.dw_row.specs.{RegisterSets.{AgreesBeside, SameBeside}, Rows.Rules, Inner.Agreement.agreed};
ghost use Rattle.dw_normal.specs.Inner.Known.{AreLess, HoldsAt, NotesAgreeAt, Puts};

use dw_row::{RegisterSet, Row};
use std::alloc::{AllocError, Global};
use std::collections::BTreeMap;
use std::mem;

/// A set of registers that is known of a CIE and of the group of a return address register.
#[derive(Drop)]
pub(crate) struct CieSet<'a> {
    pub(crate) register: u16,
    pub(crate) set: RegisterSet<'a>,
}

/// What is known of CIEs, by their places, from the last FDE of each; and the registers to which the FDE that was gone on to gives
/// other rules at its begin than its CIE.
#[derive(Drop)]
pub(crate) struct Known<'a> {
    pub(crate) changed: RegisterSet<'a>,
    pub(crate) cies: BTreeMap<u64, CieSet<'a>>,
    pub(crate) alloc: Global,
}

impl<'a> Known<'a> {
    /// Nothing is known. Takes no memory.
    pub(crate) fn none(alloc: Global) -> Known<'a>
        ensures { (place : ℕ) → get nat_cmp result.cies place ≡ None }
    {
        Known {
            changed: RegisterSet::new(alloc),
            cies: BTreeMap::new(alloc),
            alloc,
        }
    }

    /// Takes out what is known of a CIE, where it is of the group of a return address register.
    pub(crate) fn take(&mut self, cie_at: u64, register: u16) -> Option<RegisterSet<'a>>
        ensures found { IfSome result (λ set. get nat_cmp self.old.cies cie_at ≡ Some (record { register = register; set = set })) }
        ensures less { AreLess self.old.cies self.new.cies }
        ensures changed { self.new.changed ≡ self.old.changed }
    {
        match self.cies.remove(&cie_at) {
            Some(cie) if cie.register == register => Some(cie.set),
            _ => None,
        }
    }

    /// Makes the registers that were changed what is known of a CIE and of the group of a return address register, or forgets it for want of memory.
    pub(crate) fn note(&mut self, cie_at: u64, register: u16)
        ensures { Puts cie_at (record { register = register; set = self.old.changed }) self.old.cies self.new.cies }
    {
        let set = mem::replace(&mut self.changed, RegisterSet::new(self.alloc));
        drop(self.cies.insert(cie_at, CieSet { register, set }));
    }

    /// Keeps of the row of a group what the row at an FDE's begin has too. Of registers that neither this FDE nor the last one of its
    /// CIE gives another rule than the CIE does, it is known that they agree.
    pub(crate) fn agree(
        &mut self,
        shared: &mut Row<'a>,
        first: &Row<'a>,
        cie_at: u64,
        register: u16,
    ) -> Result<(), AllocError>
        requires { (row : Rules) × HoldsAt (λ set. AgreesBeside set shared.old row) cie_at register self.old.cies × SameBeside self.old.changed row first.now }
        ensures row { OnOk result (shared.new ≡ agreed shared.old first.now) }
        ensures known { OnOk result (NotesAgreeAt cie_at register self.old first.now shared.new self.new.cies) }
    {
        shared.ascends();
        match self.take(cie_at, register) {
            Some(mut set) => {
                set.add_all(&self.changed)?;
                shared.agree_among(first, &set)?;
            }
            None => shared.agree(first),
        }
        self.note(cie_at, register);
        Ok(())
    }
}
