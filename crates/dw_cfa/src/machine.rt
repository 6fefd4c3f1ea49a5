//! The machine that runs call frame instructions (6.4.2), and how the run of one ends.

ghost use Rattle.std.specs.Prelude.{◌≡◌};
ghost use Rattle.dw_num.specs.Target.{address_limit};
ghost use Rattle.dw_row.specs.Rows.{blank};
ghost use Rattle.dw_cfa.specs.Inner.LookUp.{look_up_at};

use dw_num::{Code, Refusal, Target};
use dw_row::{Row, States};
use std::alloc::Global;

/// The state of the machine in an FDE's program: the initial row, the current one with the remembered ones, and the location, which is at most the limit.
#[derive(Drop)]
pub(crate) struct Machine<'a> {
    pub(crate) initial: Row<'a>,
    pub(crate) states: States<'a>,
    pub(crate) location: u128,
    pub(crate) limit: u128,
}

impl<'a> Machine<'a> {
    /// Before a CIE's program: its rows are blank.
    #[inline(always)]
    pub(crate) fn new(alloc: Global, location: u64, target: Target) -> Machine<'a>
        ensures { result ≡ look_up_at blank (address_limit target.size) blank location }
    {
        Machine {
            initial: Row::blank(alloc),
            states: States::new(alloc, Row::blank(alloc), false),
            location: u128::from(location),
            limit: target.size.address_limit(),
        }
    }
}

/// How the run of an instruction of an FDE's program ends.
#[derive(Clone, Copy)]
pub(crate) enum End {
    /// The program goes on in the same row.
    On,
    /// The location moved: the row ends before it.
    Moved,
    /// The instruction is refused, as is written where the caller says.
    Refused,
    /// Memory ran out.
    OutOfMemory,
}

#[inline(always)]
pub(crate) fn refused(refusal: Refusal, fault: &mut Refusal) -> End
    ensures end { result ≡ End.Refused }
    ensures fault { fault.new ≡ refusal }
{
    *fault = refusal;
    End::Refused
}

/// Ends with the refusal of the instruction at a place. Out of line, as most are accepted.
#[inline(never)]
pub(crate) fn refuse(code: Code, at: u64, fault: &mut Refusal) -> End
    ensures end { result ≡ End.Refused }
    ensures fault { fault.new ≡ record { code = code; at = at } }
{
    refused(Refusal { code, at }, fault)
}
