//! Room in which two programs are run up to the row of an address (6.4.3).

ghost use Rattle.std.specs.Prelude.{◌≡◌, ◌+◌, ◌<◌, ◌≤◌, Some, IfErr, OnOk, length};
ghost use Rattle.dw_num.specs.{Refusals.Refuses, Target.address_limit};
ghost use Rattle.dw_row.specs.Rows.{blank};
ghost use Rattle.dw_cfa.specs.{Faults.{FaultUpTo, NoFaultUpTo}, Gives.RunsTo, RowSteps.program_input, RuleAt.last_at, Runs.Outcome};
ghost use Rattle.dw_cfa.specs.Inner.{RuleAt.{FoundAt, FoundBehind}, Runs.RunsSo};

use crate::execution::run_to;
use crate::instr::Factors;
use crate::lead::{Leading, lead, run_initial};
use crate::look_up::LookUp;
use crate::machine::Machine;
use dw_num::{Cursor, Program, ReadError, Target, are_bytes};
use dw_row::Row;
use std::alloc::Global;
use std::marker::Model;
use std::mem;

// Runs a CIE's program, and an FDE's up to the end of the last row that starts at or below an address.
#[tactic(auto, using(crate::proofs::LookUps::ends))]
#[inline(always)]
fn run_both<'a>(
    leading: &Leading<'a>,
    fde: &mut Cursor<'a>,
    machine: &mut Machine<'a>,
    address: u64,
) -> Result<(), ReadError>
    requires so { RunsSo machine.old fde.old }
    requires start { machine.old.location ≤ address }
    ensures { FoundAt address leading.now.factors
        (program_input leading.now.program leading.now.target) fde.old machine.old.location machine.new.states.row result }
{
    lead(leading, machine)?;
    run_to(fde, leading.factors, machine, address)
}

// The same, by what a look-up keeps.
#[tactic(auto, using(crate::proofs::LookUps::ends))]
#[inline(always)]
fn run_look_up<'a>(
    leading: &Leading<'a>,
    fde: &mut Cursor<'a>,
    look: &mut LookUp<'a>,
    begin: u64,
    address: u64,
) -> Result<(), ReadError>
    requires blank { look.old.row ≡ blank }
    requires begin { begin < address_limit fde.old.target.size }
    requires start { begin ≤ address }
    ensures { FoundAt address leading.now.factors (program_input leading.now.program leading.now.target) fde.old begin look.new.row result }
{
    run_initial(leading, &mut look.row)?;
    look.begin(begin, fde.target().size);
    run_to(fde, leading.factors, look, address)
}

/// Room in which programs (`initial_instructions` of a CIE, `instructions` of an FDE, 6.4.1) are run up to the row of an address
/// (6.4.3). A contract sees the row that was run to.
#[derive(Drop)]
pub struct RowRoom<'a> {
    look: LookUp<'a>,
    // Before the first run the row is blank, and is not cleared.
    was_run: bool,
    alloc: Global,
}

impl<'a> Model for RowRoom<'a> {
    ghost use Rattle.std.specs.Prelude.{◌≡◌, false};
    ghost use Rattle.dw_row.specs.Rows.{Rules, blank};

    ghost Value = { Rules };

    ghost view = { λ r. r.look.row };

    ghost invariant = { λ r. r.was_run ≡ false → r.look.row ≡ blank };
}

impl<'a> RowRoom<'a> {
    /// Room with a row (6.4.1) in which nothing is set. Takes no memory.
    #[inline(always)]
    pub fn new(alloc: Global) -> RowRoom<'a>
        ensures { result ≡ blank }
    {
        RowRoom {
            look: LookUp::new(alloc),
            was_run: false,
            alloc,
        }
    }

    // Runs any programs by the machine.
    #[inline(never)]
    fn run(
        &mut self,
        leading: &Leading<'a>,
        bytes: &'a [u8],
        at: u64,
        begin: u64,
        address: u64,
    ) -> Result<(), ReadError>
        requires place { at + length bytes.now ≤ 2147483647 }
        requires begin { begin < address_limit leading.now.target.size }
        requires start { begin ≤ address }
        ensures { FoundAt address leading.now.factors (program_input leading.now.program leading.now.target)
            (record { at = at; bytes = bytes.now; target = leading.now.target }) begin self.new result }
    {
        let target = leading.target;
        let mut machine = Machine::new(self.alloc, begin, target);
        let mut fde = Cursor::new(bytes, at, target);
        let result = run_both(leading, &mut fde, &mut machine, address);
        self.look.row = machine.states.into_row();
        self.was_run = true;
        result
    }

    // The same, by what a look-up keeps, where that is enough.
    #[inline(always)]
    fn run_any(
        &mut self,
        leading: Leading<'a>,
        fde_program: Program<'a>,
        begin: u64,
        address: u64,
    ) -> Result<(), ReadError>
        requires begin { begin < address_limit leading.target.size }
        requires start { begin ≤ address }
        ensures { FoundBehind address leading.entry fde_program.entry begin self.new result }
    {
        let look = &mut self.look;
        if mem::replace(&mut self.was_run, true) {
            look.row.clear();
        }
        let Program { bytes, at, .. } = fde_program;
        let mut fde = Cursor::new(bytes, at, leading.target);
        let Err(error) = run_look_up(&leading, &mut fde, &mut self.look, begin, address) else {
            return Ok(());
        };
        match error {
            ReadError::OutOfMemory => self.run(&leading, bytes, at, begin, address),
            refused => Err(refused),
        }
    }

    /// Runs two programs (`initial_instructions`, `instructions`), from an address `begin` of the target on (`initial_location`
    /// of the FDE where its row is asked for), by the factors `code_alignment_factor` and `data_alignment_factor` of the CIE, up
    /// to the last row that starts at or below an address, which `row` lends then. `begin` is not above that address. A refusal
    /// that comes up to there is answered, or want of memory (`OutOfMemory`). Refusals are those of `run`. Behind an error the room holds some row.
    #[inline(always)]
    pub fn run_to(
        &mut self,
        cie_program: Program<'a>,
        fde_program: Program<'a>,
        begin: u64,
        factors: Factors,
        target: Target,
        address: u64,
    ) -> Result<(), ReadError>
        requires begin { begin < address_limit target.size }
        requires start { begin ≤ address }
        ensures found { (o : Outcome) →
            RunsTo factors (program_input cie_program.entry target) (program_input fde_program.entry target) begin o →
            OnOk result (last_at address o.rows ≡ Some self.new) }
        ensures err { (o : Outcome) →
            RunsTo factors (program_input cie_program.entry target) (program_input fde_program.entry target) begin o →
            IfErr result (Refuses (λ r. o.fault ≡ Some r)) }
        ensures up_to { IfErr result
            (Refuses (FaultUpTo factors (program_input cie_program.entry target) (program_input fde_program.entry target) begin address)) }
        ensures none { OnOk result (NoFaultUpTo factors (program_input cie_program.entry target) (program_input fde_program.entry target) begin address) }
    {
        are_bytes(cie_program.bytes);
        are_bytes(fde_program.bytes);
        let leading = Leading {
            program: cie_program,
            factors,
            target,
        };
        self.run_any(leading, fde_program, begin, address)
    }

    /// The row (6.4.1) that was run to.
    pub fn row(&self) -> &Row<'a>
        ensures { result.now ≡ self.now }
    {
        &self.look.row
    }
}
