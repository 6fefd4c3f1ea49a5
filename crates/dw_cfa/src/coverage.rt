//! Whether an FDE's rows leave one of its addresses without a rule for the CFA (6.4.1).

ghost use Rattle.std.specs.Prelude.{◌≡◌, ℕ, ◌||◌, [], ◌∷◌, None, Some, true, false, OnOk, IfOk, IfErr};
ghost use Rattle.dw_num.specs.Refusals.{Refuses};
ghost use Rattle.dw_cfa.specs.Inner.{Coverage.{LeavesLacking, is_unset, leaves_one, lacks_from}, Runs.{RunsSo, rows_left}};

use crate::instr::Factors;
use crate::machine::{End, Machine};
use crate::turn::turn_machine;
use dw_num::{Code, Cursor, ReadError, Refusal};
use dw_row::{CfaRule, Row};

fn is_unset(row: &Row<'_>) -> bool
    ensures { result ≡ is_unset row.now.cfa }
{
    matches!(row.cfa_rule(), CfaRule::Unset)
}

// Whether a row that holds from `low` up to a location covers an address below the end. Out of line: rows seldom lack a rule for the CFA.
#[inline(never)]
fn covers_one(end: u128, low: u128, location: u128) -> bool
    ensures { result ≡ leaves_one end low true location }
{
    low < location && low < end
}

// Whether an address is left without one, now that a row ends.
#[inline(always)]
fn lacks_now(lacks: bool, row: &Row<'_>, end: u128, low: u128, location: u128) -> bool
    ensures { result ≡ (lacks || leaves_one end low (is_unset row.now.cfa) location) }
{
    if lacks || !is_unset(row) {
        return lacks;
    }
    covers_one(end, low, location)
}

// The same of the last row.
fn lacks_at_last(lacks: bool, row: &Row<'_>, end: u128, low: u128) -> bool
    ensures { result ≡ (lacks || lacks_from end 0 false (record { location = low; row = row.now } ∷ [])) }
{
    lacks || is_unset(row) && low < end
}

/// Runs a program to its end, and says whether its rows leave an address below the end without a rule for the CFA.
#[inline(always)]
pub(crate) fn lacks_rule<'a>(
    cursor: &mut Cursor<'a>,
    factors: Factors,
    machine: &mut Machine<'a>,
    end: u128,
) -> Result<bool, ReadError>
    requires so { RunsSo machine.old cursor.old }
    ensures found { IfOk result (LeavesLacking factors cursor.old machine.old end) }
    ensures refused { IfErr result (Refuses (λ r. (rows_left factors cursor.old machine.old).fault ≡ Some r)) }
    ensures so { OnOk result (RunsSo machine.new cursor.new) }
    ensures initial { machine.new.initial ≡ machine.old.initial }
    ensures kept { machine.new.states.kept ≡ machine.old.states.kept }
{
    let mut lacks = false;
    let mut low = machine.location;
    let code = Code::Truncated;
    let mut fault = Refusal { code, at: 0 };
    'instrs: while cursor.left() > 0 {
        match turn_machine(cursor, factors, machine, &mut fault) {
            End::On => {}
            End::Moved => {
                lacks = lacks_now(lacks, machine.states.row(), end, low, machine.location);
                low = machine.location;
            }
            End::Refused => return Err(ReadError::Refused(fault)),
            End::OutOfMemory => return Err(ReadError::OutOfMemory),
        }
    }
    Ok(lacks_at_last(lacks, machine.states.row(), end, low))
}
