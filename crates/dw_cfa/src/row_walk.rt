//! Rows of one FDE after another, in room that is kept (6.4.1, 6.4.3).

ghost use Rattle.std.specs.{Prelude.{◌≡◌, ◌<◌, false, None, Ok, Err, List, ◌∷◌, IfErr, IfOk, IsTrue, ◌↔◌, MatchResult, OnOk, Some}, Bool.MatchBool};
ghost use Rattle.dw_num.specs.{Refusals.Refuses, Target.address_limit};
ghost use Rattle.dw_row.specs.{Difference.{FirstDifference, place_behind}, Rows.{AreSpecified, Rules, blank}, States.BeganWith};
ghost use Rattle.dw_cfa.specs.{Behind.LeavesTo, Coverage.Lacks, Gives.RunsTo, RowSteps.{Advances, Failed, program_input, stepping}};
ghost use Rattle.dw_cfa.specs.{RowWalk.{AllKeep, CieKeeps, StandsOn, unled}, Runs.finished, declared.execution.LocatedRow.LocatedRow};
ghost use Rattle.dw_cfa.specs.Inner.{Runs.run_rows, RowWalk.{AreLeft, HasInitial, IsLed, led_row}};

use crate::coverage::lacks_rule;
use crate::instr::Factors;
use crate::lead::{Leading, leads_same, ready};
use crate::machine::Machine;
use crate::next_row::{Progress, enter, fail, next_row};
use crate::rare::copied;
use dw_num::{Cursor, Program, ReadError, Target, are_bytes};
use dw_row::Row;
use std::alloc::{AllocError, Global};
use std::marker::Model;

// Brings a CIE's row about, and keeps it.
fn keep_ready<'a>(
    leading: &Leading<'a>,
    machine: &mut Machine<'a>,
    kept: &mut bool,
) -> Result<(), ReadError>
    requires kept { IsTrue kept.old → HasInitial leading.now machine.old }
    requires first { BeganWith machine.old.initial machine.old.states.first }
    ensures ok { OnOk result (IsLed leading.now machine.old machine.new) }
    ensures left { OnOk result (AreLeft leading.now (Some machine.new.states.kept)) }
    ensures err { IfErr result (Refuses (λ r. led_row leading.now ≡ Err r)) }
    ensures kept { IsTrue kept.new → HasInitial leading.now machine.new }
{
    are_bytes(leading.program.bytes);
    ready(leading, machine, kept)?;
    Ok(machine.states.keep()?)
}

/// The rows (6.4.1, 6.4.3) of one FDE after another, in room that is kept. A CIE's program (`initial_instructions`) is run where the FDE before had another
/// CIE; else what that FDE's program (`instructions`) changed is taken back. A row can be kept, and the rows behind it are compared with it by what was set
/// since. A contract sees what it sees of `RowSteps`, the row that was kept, and the CIE's row while rows are to come behind another.
#[derive(Drop)]
pub struct RowWalk<'a> {
    progress: Progress,
    // The machine has the initial row of the CIE.
    kept: bool,
    leading: Leading<'a>,
    fde: Cursor<'a>,
    machine: Machine<'a>,
}

impl<'a> Model for RowWalk<'a> {
    ghost use Rattle.dw_cfa.specs.{RowWalk.Walking, Inner.RowWalk.{WalksSo, initial_of, led_of, walk_of}};

    ghost Value = { Walking };

    ghost view = { λ w. record {
      steps = walk_of w.progress w.leading w.fde w.machine;
      kept = w.machine.states.kept;
      led = led_of w.leading;
      initial = initial_of w.progress w.machine.initial;
    } };

    ghost invariant = { λ w. WalksSo w.progress w.kept w.leading w.fde w.machine };
}

impl<'a> RowWalk<'a> {
    /// No row (6.4.1) is to come until `lead` and `go_to` name programs. Takes no memory.
    pub fn new(alloc: Global, target: Target) -> RowWalk<'a>
        ensures { result ≡ record { steps = stepping blank finished; kept = blank; led = unled target; initial = None } }
    {
        let factors = Factors {
            code_factor: 0,
            data_factor: 0,
        };
        let program = Program { bytes: &[], at: 0 };
        RowWalk {
            progress: Progress::Finished,
            kept: false,
            leading: Leading {
                program,
                factors,
                target,
            },
            fde: Cursor::new(&[], 0, target),
            machine: Machine::new(alloc, 0, target),
        }
    }

    /// Names a CIE's program (`initial_instructions`, 6.4.1), and its factors `code_alignment_factor` and `data_alignment_factor`. No
    /// row is to come until `go_to` names a program of an FDE. Takes no memory: it is run with that one.
    pub fn lead(&mut self, cie_program: Program<'a>, factors: Factors, target: Target)
        ensures steps { self.new.steps ≡ stepping self.old.steps.current finished }
        ensures kept { self.new.kept ≡ self.old.kept }
        ensures led { self.new.led ≡ record { program = program_input cie_program.entry target; factors = factors } }
        ensures initial { self.new.initial ≡ None }
    {
        let leading = Leading {
            program: cie_program,
            factors,
            target,
        };
        self.kept = self.kept && leads_same(self.leading, leading);
        self.leading = leading;
        self.progress = Progress::Finished;
    }

    // The same by the run that the code keeps to.
    fn begin(&mut self, fde_program: Program<'a>, begin: u64)
        requires { begin < address_limit self.old.led.program.target.size }
        ensures steps { self.new.steps ≡ stepping self.old.steps.current
            (run_rows self.old.led.factors self.old.led.program (program_input fde_program.entry self.old.led.program.target) begin) }
        ensures kept { self.new.kept ≡ self.old.kept }
        ensures led { self.new.led ≡ self.old.led }
        ensures initial { self.new.initial ≡ None }
    {
        let target = self.leading.target;
        self.fde = Cursor::new(fde_program.bytes, fde_program.at, target);
        self.machine.location = u128::from(begin);
        self.machine.limit = target.size.address_limit();
        self.progress = Progress::Begun;
    }

    /// Goes to the rows of an FDE's program (`instructions`, 6.4.1) behind the CIE that `lead` named last, from an address `begin` of its target on, which is
    /// `initial_location` where the FDE's rows are asked for. Takes no memory: the programs are run by `advance`, also where an error was answered before.
    pub fn go_to(&mut self, fde_program: Program<'a>, begin: u64)
        requires { begin < address_limit self.old.led.program.target.size }
        ensures steps { self.new.steps ≡ stepping self.old.steps.current self.new.steps.outcome }
        ensures runs { RunsTo self.old.led.factors self.old.led.program
            (program_input fde_program.entry self.old.led.program.target) begin self.new.steps.outcome }
        ensures kept { self.new.kept ≡ self.old.kept }
        ensures led { self.new.led ≡ self.old.led }
        ensures initial { self.new.initial ≡ None }
    {
        are_bytes(self.leading.program.bytes);
        are_bytes(fde_program.bytes);
        self.begin(fde_program, begin);
    }

    /// Goes on to the next row (6.4.1, 6.4.3), which `row` lends then, and answers the location that it starts at, or none behind
    /// the last row. No row is copied. An error is a refusal of `run` or `OutOfMemory`, and is answered from then on, until `go_to`.
    #[inline(always)]
    pub fn advance(&mut self) -> Result<Option<u128>, ReadError>
        ensures advances { Advances self.old.steps result self.new.steps }
        ensures kept { self.new.kept ≡ self.old.kept }
        ensures led { self.new.led ≡ self.old.led }
        ensures stands { StandsOn self.new.led self.new.steps.outcome self.new.initial }
    {
        let (leading, fde, machine) = (&self.leading, &mut self.fde, &mut self.machine);
        if !enter(&mut self.progress, leading, fde, machine, &mut self.kept)? {
            return Ok(None);
        }
        match next_row(&mut self.progress, fde, leading.factors, machine) {
            Ok(start) => Ok(start),
            Err(error) => Err(fail(&mut self.progress, &mut self.machine, error)),
        }
    }

    // Ends with an error, which is answered from then on.
    pub(crate) fn give_up(&mut self, error: ReadError) -> ReadError
        ensures error { result ≡ error }
        ensures steps { self.new.steps ≡ record { outcome = finished; current = self.new.steps.current; error = Some error } }
    {
        fail(&mut self.progress, &mut self.machine, error)
    }

    /// Runs the programs to their end, and says whether the rows still to come leave an address below an end without a rule for
    /// the CFA (6.4.1, 6.4.2.2). No row is to come then. An error is a refusal of `run` or `OutOfMemory`, and is answered from then on, until `go_to`.
    pub fn lacks_rule(&mut self, end: u128) -> Result<bool, ReadError>
        requires { self.old.steps.error ≡ None }
        ensures found { IfOk result (λ lacks. (self.old.steps.outcome.fault ≡ None) ×
            MatchBool lacks (Lacks end self.old.steps.outcome.rows) (Lacks end self.old.steps.outcome.rows → ⊥)) }
        ensures refused { IfErr result (Refuses (λ r. self.old.steps.outcome.fault ≡ Some r)) }
        ensures after { MatchResult result (λ _. self.new.steps ≡ stepping self.new.steps.current finished) (λ e. self.new.steps.error ≡ Some e) }
        ensures kept { self.new.kept ≡ self.old.kept }
        ensures led { self.new.led ≡ self.old.led }
    {
        let (leading, fde, machine) = (&self.leading, &mut self.fde, &mut self.machine);
        if !enter(&mut self.progress, leading, fde, machine, &mut self.kept)? {
            return Ok(false);
        }
        let mut cursor = copied(fde);
        let lacks = lacks_rule(&mut cursor, leading.factors, machine, end);
        *fde = cursor;
        match lacks {
            Ok(lacks) => {
                self.progress = Progress::Finished;
                Ok(lacks)
            }
            Err(error) => Err(fail(&mut self.progress, &mut self.machine, error)),
        }
    }

    /// The row (6.4.1) that `advance` went on to.
    pub fn row(&self) -> &Row<'a>
        ensures { result.now ≡ self.now.steps.current }
    {
        self.machine.states.row()
    }

    /// Keeps the row (6.4.1) that is lent, or answers want of memory, behind which it is some row that is kept. What was set
    /// since a row was kept is copied alone.
    #[inline(always)]
    pub fn keep(&mut self) -> Result<(), AllocError>
        ensures kept { OnOk result (self.new.kept ≡ self.old.steps.current) }
        ensures same { self.new.steps ≡ self.old.steps }
        ensures led { self.new.led ≡ self.old.led }
        ensures initial { self.new.initial ≡ self.old.initial }
    {
        self.machine.states.keep()
    }

    /// Keeps the row that the CIE's program (`initial_instructions`, 6.4.1) leaves, where no row was gone on to yet behind `go_to`,
    /// and says whether it did: the first row is then compared with it by what the FDE's program set. The row that is lent
    /// may be another one then. A refusal or want of memory is answered from then on, until `go_to`.
    pub fn keep_initial(&mut self) -> Result<bool, ReadError>
        ensures kept { IfOk result (λ kept. IsTrue kept → LeavesTo self.old.led.factors self.old.led.program (Ok self.new.kept)) }
        ensures begun { IfOk result (λ kept. IsTrue kept ↔ (self.old.initial ≡ None) × (self.old.steps.outcome ≡ finished → ⊥)) }
        ensures same { IfOk result (λ kept. kept ≡ false → self.new ≡ self.old) }
        ensures rows { OnOk result (self.new.steps ≡
            record { outcome = self.old.steps.outcome; current = self.new.steps.current; error = self.old.steps.error }) }
        ensures failed { IfErr result (λ e. Failed self.old.steps e self.new.steps) }
        ensures led { self.new.led ≡ self.old.led }
        ensures initial { self.new.initial ≡ self.old.initial }
    {
        let Progress::Begun = self.progress else {
            return Ok(false);
        };
        match keep_ready(&self.leading, &mut self.machine, &mut self.kept) {
            Ok(()) => Ok(true),
            Err(error) => Err(fail(&mut self.progress, &mut self.machine, error)),
        }
    }

    /// Where the CIE's row specifies every register that a row specifies, each row still to come does. This does nothing.
    pub fn cie_keeps(&self)
        ensures { (row : Rules) → CieKeeps self.now row → AllKeep row self.now.steps.outcome.rows }
    {
        let _progress = self.progress;
    }

    /// The row (6.4.1) that `keep` kept, and before it some row.
    pub fn kept(&self) -> &Row<'a>
        ensures { result.now ≡ self.now.kept }
    {
        self.machine.states.kept()
    }

    /// Whether the row (6.4.1) that is lent is the one that was kept. Registers that were set since are compared alone. Where it is,
    /// it is kept from now on: those that were set before are not compared again. Takes no memory.
    #[inline(always)]
    pub fn is_kept(&mut self) -> bool
        ensures kept { IsTrue result ↔ (self.old.kept ≡ self.old.steps.current) }
        ensures same { self.new ≡ self.old }
    {
        if !self.machine.states.is_kept() {
            return false;
        }
        self.machine.states.keep_same();
        true
    }

    /// The least register to which the row that is lent gives another rule (6.4.1) than the one that was kept, of those behind a
    /// given one where there is such; or none. Registers that were set since are compared alone. Takes no memory.
    #[inline(always)]
    pub fn next_difference(&self, behind: Option<u16>) -> Option<u16>
        ensures first { FirstDifference (place_behind behind) self.now.kept.registers self.now.steps.current.registers result }
        ensures ascending { AreSpecified 0 self.now.kept.registers }
        ensures other_ascending { AreSpecified 0 self.now.steps.current.registers }
    {
        self.machine.states.next_difference(behind)
    }

    /// The location (6.4.1) that the next row starts at, which is where the row that is lent ends. None behind the last row, and after an error.
    #[inline(always)]
    pub fn next_start(&self) -> Option<u128>
        ensures next { (row : LocatedRow) (rows : List LocatedRow) → self.now.steps.outcome.rows ≡ row ∷ rows → result ≡ Some row.location }
        ensures last { self.now.steps.outcome ≡ finished → result ≡ None }
        ensures none { result ≡ None → self.now.steps.outcome ≡ finished }
    {
        match self.progress {
            Progress::Begun | Progress::Running => Some(self.machine.location),
            Progress::Finished | Progress::Failed(_) => None,
        }
    }

    /// Whether no row is to come, or rows are to come behind one that was gone on to and the CIE's row (that of its
    /// `initial_instructions`, 6.4.1) specifies every register that a row specifies. Then each row still to come specifies them too. Takes no memory.
    #[tactic(auto, using(crate::proofs::StaySpecified::walk_keeps))]
    pub fn keeps(&self, row: &Row<'_>) -> bool
        ensures keeps { IsTrue result → AllKeep row.now self.now.steps.outcome.rows }
        ensures exact { IsTrue result ↔ CieKeeps self.now row.now }
    {
        match self.progress {
            Progress::Begun => false,
            Progress::Running => self.machine.initial.specifies_all(row),
            Progress::Finished | Progress::Failed(_) => true,
        }
    }
}
