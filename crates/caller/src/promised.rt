//! What the contracts and the laws of the library say together: small functions that are proved by these alone.

ghost use Rattle.std.specs.Prelude.{◌≡◌, ◌<◌, ◌≤◌, ℕ, List, None, Some, IfErr, IfOk, MatchOption, MatchResult};
ghost use Rattle.dw_num.specs.{Refusals.Refuses, Target.address_limit, declared.error.ReadError.TheVariants.OutOfMemory};
ghost use Rattle.dw_op.specs.Least.{LeastBlock};
ghost use Rattle.dw_cfa.specs.{Faults.RunFault, InitialRules.HoldsAfter, InstrSpells.{ProgramSpells as Spells}, RowLaws.{LastHolds, OneCount}};
ghost use Rattle.dw_cfa.specs.{Location.Counts, RowSteps.program_input, RuleAt.last_at, declared.instr.Instr.Instr};
ghost use Rattle.dw_section.specs.{Accepted.Accepted, Meanings.SameMeaning};
ghost use Rattle.dw_canon.specs.Laws.{MeaningIsKept};

use dw_canon::normal_laws;
use dw_cfa::{Factors, LocatedRow, row_laws, run};
use dw_normal::normalise;
use dw_num::{Program, ReadError, Target, are_bytes};
use dw_op::{OpList, Profile, block_laws, decode};
use dw_row::Row;
use std::alloc::Global;

// The laws that proofs here cite: one in which all laws stand takes long.
fn cited_laws()
    ensures kept { MeaningIsKept }
    ensures holds { LastHolds }
    ensures count { OneCount }
{
    normal_laws();
    row_laws();
}

/// The normal form of a section. It is accepted, and says what the section says.
pub fn normal_form(alloc: Global, section: &[u8], target: Target) -> Result<Vec<u8>, ReadError>
    ensures accepted { IfOk result (λ normal. Accepted target normal.items) }
    ensures same { IfOk result (λ normal. SameMeaning target section.now normal.items) }
{
    are_bytes(section);
    cited_laws();
    normalise(alloc, section, target, 2_147_483_647)
}

/// What a block of a list is decoded to, where `encode` answered it: the operations of the list. Else memory runs out.
pub fn decoded<'b>(
    alloc: Global,
    list: &OpList<'_>,
    block: &'b [u8],
) -> Result<OpList<'b>, ReadError>
    requires { LeastBlock list.now.target list.now.ops block.now }
    ensures { MatchResult result (λ back. back.ops ≡ list.now.ops) (λ error. error ≡ OutOfMemory) }
{
    block_laws();
    decode(alloc, block, list.target(), Profile::Location)
}

// The last of the rows that starts at or below an address.
#[tactic(auto, using(crate::proofs::Rows::taken, crate::proofs::Rows::passed))]
fn last_row<'r, 'a>(rows: &'r [LocatedRow<'a>], address: u64) -> Option<&'r Row<'a>>
    ensures { MatchOption result (last_at address rows.now ≡ None) (λ row. last_at address rows.now ≡ Some row.now) }
{
    for located in rows.iter().rev() {
        if located.location <= u128::from(address) {
            return Some(&located.row);
        }
    }
    None
}

/// The row of an address, among those that the programs of a CIE and an FDE give from an address `begin` on: the last that starts at
/// or below it. It has in each column the rule at that address.
pub fn rules_of<'a>(
    alloc: Global,
    cie: Program<'a>,
    fde: Program<'a>,
    begin: u64,
    factors: Factors,
    target: Target,
    address: u64,
) -> Result<Row<'a>, ReadError>
    requires begin { begin < address_limit target.size }
    requires start { begin ≤ address }
    // Whatever instructions the programs have, the first k of the FDE's count at the address, and the row has the rules after these.
    ensures rules { (initial instrs : List Instr) → Spells target factors initial cie.entry.bytes.now → Spells target factors instrs fde.entry.bytes.now
        → IfOk result (λ row. (k : ℕ) × Counts begin instrs address k × HoldsAfter initial instrs k row) }
    // An error is the first fault of the programs, or memory ran out.
    ensures refused { IfErr result (Refuses (RunFault factors (program_input cie.entry target) (program_input fde.entry target) begin)) }
{
    are_bytes(cie.bytes);
    are_bytes(fde.bytes);
    cited_laws();
    let rows = run(alloc, cie, fde, begin, factors, target)?;
    let Some(row) = last_row(&rows, address) else {
        unreachable!();
    };
    Ok(row.copied()?)
}
