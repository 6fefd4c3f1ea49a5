//! Programs that are run instruction by instruction (6.4.3).

ghost use Rattle.std.specs.Prelude.{◌≡◌, ◌≤◌, Some, OnOk, IfErr, false};
ghost use Rattle.dw_num.specs.Refusals.{Refuses};
ghost use Rattle.dw_cfa.specs.{RuleAt.last_at, Inner.{Runs.{LeftUpTo, NoneLeftUpTo, RunsSo, rows_left}, Turns.{Does, Stays}}};

use crate::instr::Factors;
use crate::keep::Keep;
use crate::machine::End;
use crate::turn::turn;
use dw_num::{Code, Cursor, ReadError, Refusal};
use dw_row::Row;

/// A row of the call frame table (6.4.1, 6.4.3), and the location that it starts at. It holds up to the location of the next row.
#[derive(Clone, Debug, Drop, PartialEq, Eq)]
pub struct LocatedRow<'a> {
    /// Where it starts: `initial_location`, or what `DW_CFA_set_loc` and `DW_CFA_advance_loc` made of it. It is at most 2^N, where an address has N bits.
    pub location: u128,
    /// The rules from there on.
    pub row: Row<'a>,
}

/// Runs a program up to the end of the last row that starts at or below an address, which the machine has then.
#[tactic(auto, using(crate::proofs::RowsTo::ends_above, crate::proofs::RunSteps::rows_end, crate::proofs::StopsTo::not_below))]
#[inline(always)]
pub(crate) fn run_to<'a, K: Keep<'a>>(
    cursor: &mut Cursor<'a>,
    factors: Factors,
    keep: &mut K,
    address: u64,
) -> Result<(), ReadError>
    requires fde { Does false K.machine K.takes }
    requires so { RunsSo (K.machine keep.old) cursor.old }
    requires start { (K.machine keep.old).location ≤ address }
    ensures ran { OnOk result (last_at address (rows_left factors cursor.old (K.machine keep.old)).rows ≡ Some (K.machine keep.new).states.row) }
    ensures none { OnOk result (NoneLeftUpTo factors cursor.old (K.machine keep.old) address) }
    ensures err { IfErr result (Refuses (LeftUpTo factors cursor.old (K.machine keep.old) address)) }
    ensures same { Stays (K.machine keep.old) (K.machine keep.new) }
{
    let code = Code::Truncated;
    let mut refusal = Refusal { code, at: 0 };
    'instrs: while cursor.left() > 0 {
        match turn(cursor, factors, keep, &mut refusal) {
            End::On => {}
            End::Moved => {
                if keep.is_above(address) {
                    return Ok(());
                }
            }
            End::Refused => return Err(ReadError::Refused(refusal)),
            End::OutOfMemory => return Err(ReadError::OutOfMemory),
        }
    }
    Ok(())
}
