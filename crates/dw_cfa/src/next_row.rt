//! How far the programs of a walk were run, and its next row (6.4.3).

ghost use Rattle.std.specs.Prelude.{◌≡◌, None};
ghost use Rattle.dw_cfa.specs.Inner.{RowWalk.{GoesOn, IsEntered, WalksSo}, Runs.{RunsSo, rows_left}};

use crate::instr::Factors;
use crate::lead::{Leading, ready};
use crate::machine::{End, Machine};
use crate::turn::turn_machine;
use dw_num::{Code, Cursor, ReadError, Refusal, are_bytes};

/// How far the programs were run.
#[derive(Clone, Copy)]
pub(crate) enum Progress {
    Begun,
    Running,
    Finished,
    Failed(ReadError),
}

/// Ends with an error, which is answered from then on.
#[inline(never)]
pub(crate) fn fail(
    progress: &mut Progress,
    machine: &mut Machine<'_>,
    error: ReadError,
) -> ReadError
    ensures error { result ≡ error }
    ensures progress { progress.new ≡ Progress.Failed error }
    ensures first { machine.new.states.first ≡ None }
    ensures initial { machine.new.initial ≡ machine.old.initial }
    ensures kept { machine.new.states.kept ≡ machine.old.states.kept }
{
    machine.states.untrack();
    *progress = Progress::Failed(error);
    error
}

// Brings a CIE's row about, where no row of an FDE was gone on to yet.
#[tactic(auto, using(crate::proofs::RunSteps::run_ran))]
#[inline(always)]
fn begin<'a>(
    progress: &mut Progress,
    leading: &Leading<'a>,
    fde: &Cursor<'a>,
    machine: &mut Machine<'a>,
    kept: &mut bool,
) -> Result<bool, ReadError>
    requires begun { progress.old ≡ Progress.Begun }
    requires so { WalksSo Progress.Begun kept.old leading.now fde.now machine.old }
    ensures so { WalksSo progress.new kept.new leading.now fde.now machine.new }
    ensures entered { IsEntered Progress.Begun machine.old progress.new leading.now fde.now machine.new result }
    ensures kept_row { machine.new.states.kept ≡ machine.old.states.kept }
{
    are_bytes(leading.program.bytes);
    are_bytes(fde.rest());
    match ready(leading, machine, kept) {
        Ok(()) => {
            *progress = Progress::Running;
            Ok(true)
        }
        Err(error) => Err(fail(progress, machine, error)),
    }
}

/// Brings a CIE's row about, where no row of an FDE was gone on to yet, and answers whether rows are to come.
#[inline(always)]
pub(crate) fn enter<'a>(
    progress: &mut Progress,
    leading: &Leading<'a>,
    fde: &Cursor<'a>,
    machine: &mut Machine<'a>,
    kept: &mut bool,
) -> Result<bool, ReadError>
    requires { WalksSo progress.old kept.old leading.now fde.now machine.old }
    ensures so { WalksSo progress.new kept.new leading.now fde.now machine.new }
    ensures entered { IsEntered progress.old machine.old progress.new leading.now fde.now machine.new result }
    ensures kept_row { machine.new.states.kept ≡ machine.old.states.kept }
{
    match *progress {
        Progress::Begun => begin(progress, leading, fde, machine, kept),
        Progress::Running => Ok(true),
        Progress::Finished => Ok(false),
        Progress::Failed(error) => Err(error),
    }
}

/// Runs a program up to the end of a row, which the machine has then, and answers where the row starts. Only behind the last row is
/// a walk's progress another one.
#[tactic(auto, using(crate::proofs::RunSteps::rows_end))]
#[inline(always)]
pub(crate) fn next_row<'a>(
    progress: &mut Progress,
    cursor: &mut Cursor<'a>,
    factors: Factors,
    machine: &mut Machine<'a>,
) -> Result<Option<u128>, ReadError>
    requires running { progress.old ≡ Progress.Running }
    requires so { RunsSo machine.old cursor.old }
    ensures row { GoesOn (rows_left factors cursor.old machine.old) factors cursor.new machine.new progress.new result }
    ensures initial { machine.new.initial ≡ machine.old.initial }
    ensures kept { machine.new.states.kept ≡ machine.old.states.kept }
{
    let code = Code::Truncated;
    let mut fault = Refusal { code, at: 0 };
    let start = machine.location;
    'instrs: while cursor.left() > 0 {
        match turn_machine(cursor, factors, machine, &mut fault) {
            End::On => {}
            End::Moved => return Ok(Some(start)),
            End::Refused => return Err(ReadError::Refused(fault)),
            End::OutOfMemory => return Err(ReadError::OutOfMemory),
        }
    }
    *progress = Progress::Finished;
    Ok(Some(start))
}
