//! How an FDE's program begins (6.4.3).

ghost use Rattle.std.specs.Prelude.{◌≡◌, List, if◌then◌else◌};
ghost use Rattle.dw_cfa.specs.{InstrSpells.ProgramSpells, Listing.answers, Opening.first_row, declared.instr.Instr.{Instr as TheInstr}};
ghost use Rattle.dw_cfa.specs.{declared.opening.FirstRow.TheVariants.{CfaOffset, Other}, Inner.Opening.{answers_move, answers_row}};

use crate::instr::{Factors, Instr};
use crate::instructions::Instructions;
use dw_num::{Program, Target};

/// The row at an FDE's begin, where the first instructions of its program tell it.
#[derive(Clone, Copy)]
pub enum FirstRow {
    /// The row that the program of its CIE leaves.
    Initial,
    /// That row with this offset of the CFA, by a `DW_CFA_def_cfa_offset` or `DW_CFA_def_cfa_offset_sf`.
    CfaOffset(i64),
    /// They do not tell it.
    Other,
}

// Whether the first of the instructions to come that is no nop advances the location by more than 0.
fn next_moves(instrs: &mut Instructions<'_>) -> bool
    ensures { result ≡ answers_move (answers instrs.old) }
{
    'instrs: while let Some(answer) = instrs.next() {
        match answer {
            Ok(Instr::Nop) => {}
            Ok(Instr::Advance(delta)) => return delta > 0,
            _ => return false,
        }
    }
    true
}

// The row where the instructions to come follow one that gives the CFA an offset.
fn row_behind(offset: i64, instrs: &mut Instructions<'_>) -> FirstRow
    ensures { result ≡ (if answers_move (answers instrs.old) then CfaOffset offset else Other) }
{
    if next_moves(instrs) {
        return FirstRow::CfaOffset(offset);
    }
    FirstRow::Other
}

// The row where a program has these instructions.
fn row_of(instrs: &mut Instructions<'_>) -> FirstRow
    ensures { result ≡ answers_row (answers instrs.old) }
{
    'instrs: while let Some(answer) = instrs.next() {
        match answer {
            Ok(Instr::Nop) => {}
            Ok(Instr::Advance(delta)) if delta > 0 => return FirstRow::Initial,
            Ok(Instr::DefCfaOffset(offset)) => return row_behind(offset, instrs),
            _ => return FirstRow::Other,
        }
    }
    FirstRow::Initial
}

/// The row at an FDE's begin, by its program's first instructions that are not `DW_CFA_nop`: where the first one advances the location by more than 0, or
/// there is none, it is the row that its CIE's program leaves; and where a `DW_CFA_def_cfa_offset` or `DW_CFA_def_cfa_offset_sf` comes before, it is that row
/// with this offset of the CFA. `Other` for a `DW_CFA_set_loc`, which may stay where it is. Takes no memory.
#[tactic(auto, using(crate::proofs::FirstRows::answers_first))]
pub fn first_row(program: Program<'_>, factors: Factors, target: Target) -> FirstRow
    ensures { (instrs : List TheInstr) → ProgramSpells target factors instrs program.entry.bytes.now → result ≡ first_row instrs }
{
    let mut instrs = Instructions::new(program, factors, target);
    row_of(&mut instrs)
}
