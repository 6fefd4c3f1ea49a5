//! Sections that are checked whole (6.4.1).

ghost use Rattle.std.specs.Prelude.{◌≡◌, List, IfOk, IfErr, MatchResult};
ghost use Rattle.dw_num.specs.{Input.AreBytes, Refusals.Refuses, declared.error.ReadError.TheVariants.OutOfMemory};
ghost use Rattle.dw_op.specs.Faults.{IsWithin};
ghost use Rattle.dw_section.specs.{Accepted.{CheckFault, Accepted}, Counts.AreCounts, Cut.Piece, Meaning.AreFdes, Pieces.Pieces, Ranges.IsTable};
ghost use Rattle.dw_section.specs.declared.lookup.Fde.{Fde as TheFde};

use crate::entry::EntryCounts;
use crate::fde_range::{run_cies, run_fdes};
use crate::header::{Initial, cies_of, or_fields_fault};
use dw_index::Ranged;
use dw_num::{Cursor, ReadError, Target, are_bytes};
use std::alloc::Global;
use std::marker::Model;

/// A section `.debug_frame` (6.4.1) that was checked: its nonempty FDEs by their begins (`initial_location`). A contract sees its target and its bytes.
#[derive(Drop)]
pub struct Table<'a> {
    pub(crate) bytes: &'a [u8],
    pub(crate) target: Target,
    pub(crate) counts: EntryCounts,
    pub(crate) initials: Vec<Initial<'a>>,
    pub(crate) index: Vec<Ranged>,
}

impl<'a> Model for Table<'a> {
    ghost use Rattle.dw_section.specs.{Ranges.IsTable, Table.Section, Inner.Index.IsKept};

    ghost Value = { Section };

    ghost view = { λ t. record { target = t.target; bytes = t.bytes.now } };

    ghost invariant = { λ t. IsTable t.target t.bytes.now t.index.items × IsKept t.target t.bytes.now t.counts t.initials.items };
}

impl<'a> Table<'a> {
    /// The machine that the section is for.
    pub fn target(&self) -> Target
        ensures { result ≡ self.now.target }
    {
        self.target
    }

    /// The bytes of the section.
    pub fn bytes(&self) -> &'a [u8]
        ensures { result.now ≡ self.now.bytes }
    {
        self.bytes
    }

    /// The section was accepted, its bytes are bytes, and it has a list of nonempty FDEs. Does nothing.
    pub fn accepted(&self)
        ensures accepted { Accepted self.now.target self.now.bytes }
        ensures fdes { (fs : List TheFde) × AreFdes self.now.target self.now.bytes fs }
        ensures bytes { AreBytes self.now.bytes }
    {
        let _ = self.index();
        are_bytes(self.bytes);
    }

    /// The index of the section: its nonempty FDEs by begin, as `look_up` takes it. Takes no memory.
    pub fn index(&self) -> &[Ranged]
        ensures { IsTable self.now.target self.now.bytes result.now }
    {
        &self.index
    }

    /// How many CIEs and FDEs the section has.
    pub fn counts(&self) -> EntryCounts
        ensures { (ps : List Piece) → Pieces self.now.target self.now.bytes ps → AreCounts ps result }
    {
        self.counts
    }
}

fn checked<'a>(alloc: Global, bytes: &'a [u8], target: Target) -> Result<Table<'a>, ReadError>
    ensures found { IfOk result (λ table. (table ≡ record { target = target; bytes = bytes.now }) × Accepted target bytes.now) }
    ensures first { IfErr result (Refuses (CheckFault target bytes.now)) }
{
    let cies = cies_of(alloc, bytes, target)?;
    if let Err(broken) = run_cies(alloc, &cies.initials, target) {
        let mut cursor = Cursor::new(bytes, 0, target);
        return Err(or_fields_fault(&mut cursor, target, &cies.places, broken));
    }
    let index = run_fdes(alloc, bytes, target, &cies)?;
    Ok(Table {
        bytes,
        target,
        counts: cies.counts,
        initials: cies.initials,
        index,
    })
}

/// The table of a section: all programs are run, each covered address has a rule for the CFA, and no two FDEs share an address.
///
/// A refusal is the first fault: of size, cut and fields (1 to 11 and 26, as `headers` has it); then of the programs of CIEs by place, and of those of FDEs
/// by place, as `dw_cfa::run` has it: `Truncated` (1), `NumberTooLarge` (8), `RegisterTooLarge` (9), `BadDerefSize` (23) at the operand; `UnknownInstruction`
/// (12), `NotInCie` (13), `LocationBackwards` (14), `LocationTooLarge` (15), `EmptyStateStack` (16), `StateStackFull` (17), `CfaNotRegister` (18),
/// `OffsetTooLarge` (19), `UnknownOperation` (20), `NotInFrame` (21), `BadBranch` (22) at the opcode; then `NoCfaRule` (24) at the FDE, by place; and last
/// `Overlap` (25) at the first nonempty FDE, in order of begin and place, that begins below the end of one before it. `OutOfMemory` may come instead.
pub fn check<'a>(alloc: Global, bytes: &'a [u8], target: Target) -> Result<Table<'a>, ReadError>
    // It is the table of an accepted section.
    ensures found { IfOk result (λ table. (table ≡ record { target = target; bytes = bytes.now }) × Accepted target bytes.now) }
    // An accepted section is not refused.
    ensures only { Accepted target bytes.now → MatchResult result (λ table. table ≡ record { target = target; bytes = bytes.now }) (λ e. e ≡ OutOfMemory) }
    // A refusal is the first fault.
    ensures first { IfErr result (Refuses (CheckFault target bytes.now)) }
    // Its place is in the section or at its end.
    ensures within { IfErr result (Refuses (IsWithin bytes.now)) }
{
    are_bytes(bytes);
    checked(alloc, bytes, target)
}
