//! The registers to which two rows give different rules.

ghost use Rattle.std.specs.{Prelude.{◌≡◌, ℕ, false, None, IfSome, OnOk}, BTreeMap.get, Ordering.nat_cmp};
ghost use Rattle.dw_row.specs.{Difference.{FirstDifference, place_behind}, RegisterSets.SameBeside, Rows.{AreSpecified, Rules}};
ghost use Rattle.dw_normal.specs.Inner.{Apart.{KnownBeside, NotesSame, NotesSameAt, StandsApart}, ChangeWalk.{IsShown, shown_row}, Differences.Tells};

use crate::known::Known;
use dw_row::{RegisterSet, Row};
use dw_section::{Behind, Changes};
use std::alloc::{AllocError, Global};

/// How the registers are found to which two rows give different rules: by what costs least.
#[derive(Clone, Copy)]
pub(crate) enum Differences<'d, 'a> {
    /// By both rows.
    Rows,
    /// By both rows, among the registers of a set, outside which they give the same rules.
    Among(&'d RegisterSet<'a>),
    /// By what the change that is shown altered.
    Altered(&'d Changes<'a>),
}

impl<'d, 'a> Differences<'d, 'a> {
    /// The least register to which both rows give different rules, of those behind a given one where there is such; or none.
    #[inline(always)]
    pub(crate) fn next(self, before: &Row<'a>, after: &Row<'a>, behind: Option<u16>) -> Option<u16>
        requires { Tells self before.now after.now }
        ensures first { FirstDifference (place_behind behind) before.now.registers after.now.registers result }
        ensures ascending { AreSpecified 0 before.now.registers }
        ensures other_ascending { AreSpecified 0 after.now.registers }
    {
        match self {
            Differences::Rows => before.next_difference(after, behind),
            Differences::Among(set) => before.next_difference_among(after, set, behind),
            Differences::Altered(changes) => changes.next_difference(behind),
        }
    }
}

/// The registers to which the row at an FDE's begin and the initial row of its group give different rules, where they are listed, and what
/// is known of CIEs with long programs, by which they are found.
#[derive(Drop)]
pub(crate) struct Apart<'a> {
    pub(crate) listed: bool,
    pub(crate) registers: RegisterSet<'a>,
    pub(crate) known: Known<'a>,
}

fn list_differences<'a>(
    differences: Differences<'_, 'a>,
    shared: &Row<'a>,
    first: &Row<'a>,
    registers: &mut RegisterSet<'a>,
) -> Result<(), AllocError>
    requires { Tells differences shared.now first.now }
    ensures { OnOk result (SameBeside registers.new shared.now first.now) }
{
    registers.clear();
    let mut last = None;
    'registers: while let Some(register) = differences.next(shared, first, last) {
        registers.add(register)?;
        last = Some(register);
    }
    Ok(())
}

impl<'a> Apart<'a> {
    /// Nothing is listed. Takes no memory.
    pub(crate) fn none(alloc: Global) -> Apart<'a>
        ensures listed { result.listed ≡ false }
        ensures known { (place : ℕ) → get nat_cmp result.known.cies place ≡ None }
    {
        Apart {
            listed: false,
            registers: RegisterSet::new(alloc),
            known: Known::none(alloc),
        }
    }

    /// How they are found.
    #[inline(always)]
    pub(crate) fn differences(&self) -> Differences<'_, 'a>
        ensures { (shared first : Rules) → StandsApart self.now shared first → Tells result shared first }
    {
        if self.listed {
            return Differences::Among(&self.registers);
        }
        Differences::Rows
    }

    // Lists them by what is known of the FDE's CIE and of the group of a return address register, and notes that.
    #[inline(never)]
    fn list_behind(
        &mut self,
        shared: &Row<'a>,
        first: &Row<'a>,
        cie_at: u64,
        register: u16,
    ) -> Result<(), AllocError>
        requires { KnownBeside cie_at register self.old.known shared.now first.now }
        ensures lists { OnOk result (SameBeside self.new.registers shared.now first.now) }
        ensures known { OnOk result (NotesSameAt cie_at register self.old.known shared.now first.now self.new.known.cies) }
    {
        match self.known.take(cie_at, register) {
            Some(mut among) => {
                among.add_all(&self.known.changed)?;
                let differences = Differences::Among(&among);
                list_differences(differences, shared, first, &mut self.registers)?;
            }
            None => list_differences(Differences::Rows, shared, first, &mut self.registers)?,
        }
        self.known.changed.add_all(&self.registers)?;
        self.known.note(cie_at, register);
        Ok(())
    }

    /// Lists the registers where the CIE's program is long, and else leaves them to be found by both rows. One of them is the row that is shown.
    #[inline(always)]
    pub(crate) fn list(
        &mut self,
        shared: &Row<'a>,
        changes: &Changes<'a>,
        behind: Option<Behind>,
        register: u16,
    ) -> Result<(), AllocError>
        requires shown { IsShown changes.now }
        requires known { IfSome behind (λ b. KnownBeside b.cie_at register self.old.known shared.now (shown_row changes.now)) }
        ensures stands { OnOk result (StandsApart self.new shared.now (shown_row changes.now)) }
        ensures known { OnOk result (NotesSame behind register self.old.known shared.now (shown_row changes.now) self.new.known.cies) }
    {
        self.listed = false;
        let Some(behind) = behind else {
            return Ok(());
        };
        let Some(first) = changes.row() else {
            unreachable!();
        };
        self.list_behind(shared, first, behind.cie_at, register)?;
        self.listed = true;
        Ok(())
    }
}
