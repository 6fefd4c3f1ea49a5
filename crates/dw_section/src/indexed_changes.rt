//! All changes of an FDE to which an index leads, in bytes that were not checked (6.4.1, 6.4.3).

ghost use Rattle.std.specs.Prelude.{◌≡◌, IfSome, List, None, Some};
ghost use Rattle.dw_num.specs.declared.refusal.Refusal.{Refusal as TheRefusal};
ghost use Rattle.dw_op.specs.Faults.{IsWithin};
ghost use Rattle.dw_section.specs.Meaning.{ChangesOf};
ghost use Rattle.dw_section.specs.Ranges.{IsTable, LeadsTo, Ranged as TheRanged};
ghost use Rattle.dw_section.specs.StandingChanges.{ChangesFault, GivesNext, StandingChanges};

use crate::change::next_change;
use crate::standing_fde::IndexedFde;
use dw_cfa::RowWalk;
use dw_num::{ReadError, are_bytes};
use dw_row::Row;
use std::alloc::Global;
use std::marker::Model;

/// The changes of an FDE to which an index leads (6.4.1, 6.4.3): its begin (`initial_location`), and
/// each address below its end (that plus `address_range`) at which the rule of some column is not
/// that one address before, ascending, each with the rules there. The programs of the FDE and of its
/// CIE are run once, to their ends, and may be refused.
#[derive(Drop)]
pub struct IndexedChanges<'a> {
    walk: RowWalk<'a>,
    // The walk lends the row of the change that was answered last.
    lent: bool,
    // The walk kept the row of a change that was answered.
    kept: bool,
    end: u128,
}

impl<'a> Model for IndexedChanges<'a> {
    ghost use Rattle.std.specs.Prelude.{◌≤◌, ◌^◌};
    ghost use Rattle.dw_section.specs.{StandingChanges.Judging, Inner.StandingChanges.judging};

    ghost Value = { Judging };

    ghost view = { λ c. judging c.walk c.lent c.kept c.end };

    ghost invariant = { λ c. c.end ≤ 2 ^ 64 };
}

impl<'a> IndexedFde<'a> {
    /// The changes of the FDE. Takes no memory: its program and that of its CIE are run by
    /// `IndexedChanges::advance`.
    pub fn changes(&self, alloc: Global) -> IndexedChanges<'a>
        // By the index of an accepted section they are those that the section says.
        ensures own { (index : List TheRanged) → IsTable self.now.target self.now.bytes index
            → LeadsTo index self.now.address self.now.at → (result.fault ≡ None)
            × ChangesOf self.now.target self.now.bytes self.now.fde result.to_come }
        // By any other they are those of the FDE, if its programs have no fault.
        ensures found { result.fault ≡ None
            → StandingChanges self.now.target self.now.bytes self.now.at self.now.fde result.to_come }
        // A fault is the first one of what stands where an entry leads that covers the address.
        ensures refused { (index : List TheRanged) → LeadsTo index self.now.address self.now.at
            → (r : TheRefusal) → result.fault ≡ Some r
            → ChangesFault self.now.target self.now.bytes index self.now.address r }
        ensures within { IfSome result.fault (IsWithin self.now.bytes) }
    {
        are_bytes(self.bytes);
        let (cie, own) = (self.found.cie, self.found.own);
        are_bytes(cie.program.bytes);
        are_bytes(own.program.bytes);
        let mut walk = RowWalk::new(alloc, self.target);
        walk.lead(cie.program, cie.factors, self.target);
        walk.go_to(own.program, own.begin);
        IndexedChanges {
            walk,
            lent: false,
            kept: false,
            end: u128::from(own.begin) + u128::from(own.range),
        }
    }
}

impl<'a> IndexedChanges<'a> {
    /// Goes on to the next change and answers its address, or none behind the last one. `row` lends
    /// the row (6.4.1) of that change then.
    ///
    /// `Refused` has the first fault of the CIE's program and then of the FDE's (1, 8, 9, 12 to 23,
    /// as `dw_cfa::run` has it), also of what comes behind the FDE's end. Changes before it were
    /// answered. `OutOfMemory` says that a request for memory was refused. Behind an error nothing
    /// is said.
    #[inline(always)]
    pub fn advance(&mut self) -> Result<Option<u64>, ReadError>
        ensures { GivesNext self.old result self.new }
    {
        let change = next_change(&mut self.walk, &mut self.kept, self.lent, self.end)?;
        let Some(address) = change else {
            return Ok(None);
        };
        self.lent = true;
        Ok(Some(address as u64))
    }

    /// The row (6.4.1) of the change that `advance` went on to.
    #[inline(always)]
    pub fn row(&self) -> &Row<'a>
        ensures { result.now ≡ self.now.current }
    {
        self.walk.row()
    }
}
