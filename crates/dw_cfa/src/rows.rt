//! All rows of an FDE (6.4.3).

ghost use Rattle.std.specs.Prelude.{◌≡◌, ◌<◌, List, IfOk, IfErr, MatchResult, None, Some};
ghost use Rattle.dw_num.specs.{Refusals.Refuses, Target.address_limit, declared.error.ReadError.TheVariants.OutOfMemory};
ghost use Rattle.dw_cfa.specs.{Faults.RunFault, Gives.Gives, RowSteps.program_input};
ghost use Rattle.dw_cfa.specs.{declared.execution.LocatedRow.{LocatedRow as TheLocatedRow}, Inner.RowSteps.gives};

use crate::execution::LocatedRow;
use crate::instr::Factors;
use crate::steps::RowSteps;
use dw_num::{Program, ReadError, Target, are_bytes};
use std::alloc::Global;

/// Rows of the call frame table (6.4.3) with the locations that they start at, which never fall.
pub type Rows<'a> = Vec<LocatedRow<'a>>;

// The rows that are still to come, where none of them is refused.
fn collected<'a>(alloc: Global, steps: &mut RowSteps<'a>) -> Result<Rows<'a>, ReadError>
    requires { steps.old.error ≡ None }
    ensures ok { IfOk result (λ rows. steps.old.outcome ≡ gives rows.items) }
    ensures err { IfErr result (Refuses (λ r. steps.old.outcome.fault ≡ Some r)) }
{
    let mut rows = Vec::new(alloc);
    'rows: while let Some(row) = steps.next()? {
        rows.push(row)?;
    }
    Ok(rows)
}

/// The rows that a CIE's and an FDE's program give, from an address `begin` of the target on: one before each instruction that moves the location, and one at
/// the end. Otherwise the first refusal, the CIE's program first, or want of memory (`OutOfMemory`).
///
/// A refusal of either program is one of `Instructions`, or `CfaNotRegister` (18) at the opcode. The CIE's program may also be refused by `NotInCie` (13),
/// the FDE's by `LocationBackwards` (14), `LocationTooLarge` (15), `EmptyStateStack` (16) or `StateStackFull` (17), each at the opcode. An instruction is
/// read whole before it is judged. Places count from the program's `at`.
pub fn run<'a>(
    alloc: Global,
    cie_program: Program<'a>,
    fde_program: Program<'a>,
    begin: u64,
    factors: Factors,
    target: Target,
) -> Result<Rows<'a>, ReadError>
    requires { begin < address_limit target.size }
    ensures rows { IfOk result (λ rows. Gives factors (program_input cie_program.entry target) (program_input fde_program.entry target) begin rows.items) }
    ensures only { (rows : List TheLocatedRow) →
        Gives factors (program_input cie_program.entry target) (program_input fde_program.entry target) begin rows →
        MatchResult result (λ v. v.items ≡ rows) (λ e. e ≡ OutOfMemory) }
    ensures refused { IfErr result (Refuses (RunFault factors (program_input cie_program.entry target) (program_input fde_program.entry target) begin)) }
{
    are_bytes(cie_program.bytes);
    are_bytes(fde_program.bytes);
    let mut steps = RowSteps::new(alloc, cie_program, fde_program, begin, factors, target);
    let rows = collected(alloc, &mut steps);
    drop(steps);
    rows
}
