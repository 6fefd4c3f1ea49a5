//! Rows one at a time (6.4.3).

ghost use Rattle.std.specs.Prelude.{◌≡◌, ◌<◌, Some, Err};
ghost use Rattle.dw_num.specs.Target.{address_limit};
ghost use Rattle.dw_row.specs.Rows.{blank};
ghost use Rattle.dw_cfa.specs.{Gives.RunsTo, RowSteps.{Advances, Answers, stepping, program_input}};

use crate::execution::LocatedRow;
use crate::instr::Factors;
use crate::row_walk::RowWalk;
use dw_num::{Program, ReadError, Target};
use dw_row::Row;
use std::alloc::Global;
use std::marker::Model;

/// The rows that a CIE's `initial_instructions` and an FDE's `instructions` give (6.4.3), one at a time: one before each instruction that moves the location,
/// and one at the end. A contract sees the rows still to come, the refusal behind them, the row that is lent, and the error that was answered.
#[derive(Drop)]
pub struct RowSteps<'a> {
    walk: RowWalk<'a>,
}

impl<'a> Model for RowSteps<'a> {
    ghost use Rattle.dw_cfa.specs.RowSteps.{Stepping};

    ghost Value = { Stepping };

    ghost view = { λ s. s.walk.steps };
}

impl<'a> RowSteps<'a> {
    /// The rows of two programs, from an address `begin` of the target on. Takes no memory: the CIE's program is run at the first `next`.
    pub fn new(
        alloc: Global,
        cie_program: Program<'a>,
        fde_program: Program<'a>,
        begin: u64,
        factors: Factors,
        target: Target,
    ) -> RowSteps<'a>
        requires { begin < address_limit target.size }
        ensures steps { result ≡ stepping blank result.outcome }
        ensures runs { RunsTo factors (program_input cie_program.entry target) (program_input fde_program.entry target) begin result.outcome }
    {
        let mut walk = RowWalk::new(alloc, target);
        walk.lead(cie_program, factors, target);
        walk.go_to(fde_program, begin);
        RowSteps { walk }
    }

    /// Goes on to the next row, which `row` lends then, and answers the location that it starts at, or none behind
    /// the last row. No row is copied. An error is a refusal or `OutOfMemory`, and is answered from then on. Refusals are those of `run`.
    #[tactic(auto, using(crate::proofs::Walks::answered_again))]
    pub fn advance(&mut self) -> Result<Option<u128>, ReadError>
        ensures advances { Advances self.old result self.new }
        ensures again { (e : ReadError) → self.old.error ≡ Some e → result ≡ Err e }
    {
        self.walk.advance()
    }

    /// The row that `advance` or `next` went on to. Before the first one it is a blank row: no column has a rule.
    pub fn row(&self) -> &Row<'a>
        ensures { result.now ≡ self.now.current }
    {
        self.walk.row()
    }

    /// The next row, or none behind the last one. An error is a refusal or `OutOfMemory`, and is answered from then on. Refusals are those of `run`.
    pub fn next(&mut self) -> Result<Option<LocatedRow<'a>>, ReadError>
        ensures answers { Answers self.old result self.new }
        ensures again { (e : ReadError) → self.old.error ≡ Some e → result ≡ Err e }
    {
        let Some(location) = self.advance()? else {
            return Ok(None);
        };
        match self.row().copied() {
            Ok(row) => Ok(Some(LocatedRow { location, row })),
            Err(_) => Err(self.walk.give_up(ReadError::OutOfMemory)),
        }
    }
}
