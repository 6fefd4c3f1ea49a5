//! The instructions of a program, one after another.

ghost use Rattle.std.specs.{Prelude.{◌≡◌, ◌+◌, ◌≤◌, ◌↔◌, IfSome, List, length}, Iterator.{YieldsFirst, item_count}};
ghost use Rattle.dw_num.specs.{declared.refusal.Refusal.{Refusal}, Inner.Front.Gives};
ghost use Rattle.dw_row.specs.Rows.{blank};
ghost use Rattle.dw_cfa.specs.{InstrSpells.ProgramSpells, Listing.{ProgramFault, complete, faulty, answers}, declared.{instr.Instr.Instr, machine.End.End}};
ghost use Rattle.dw_cfa.specs.Inner.{FrontInstr.instr_at, Listing.{Yields, left_of}, Turns.cie_machine};

use crate::instr::{Factors, Instr};
use crate::keep::{Keep, bare};
use crate::machine::End;
use crate::opcode::Opcode;
use crate::turn::execute;
use dw_num::{Code, Cursor, Program, Refusal, Target, are_bytes};
use dw_row::RegRule;
use std::marker::Model;

// The last instruction of a program that was read. It runs none: its machine stays as it is.
#[derive(Drop)]
struct Noted<'a> {
    instr: Instr<'a>,
}

impl<'a> Keep<'a> for Noted<'a> {
    ghost machine = { λ k. cie_machine blank };

    ghost takes = { λ k i at end fault k'. (end ≡ End.On) × (k'.instr ≡ i) };

    #[inline(always)]
    fn take(&mut self, instr: Instr<'a>, _at: u64, _fault: &mut Refusal) -> End {
        self.instr = instr;
        End::On
    }

    #[inline(always)]
    fn advance(&mut self, distance: u128, at: u64, fault: &mut Refusal) -> End {
        self.take(Instr::Advance(distance), at, fault)
    }

    #[inline(always)]
    fn def_cfa(&mut self, register: u16, offset: i64, at: u64, fault: &mut Refusal) -> End {
        self.take(Instr::DefCfa { register, offset }, at, fault)
    }

    #[inline(always)]
    fn def_cfa_offset(&mut self, offset: i64, at: u64, fault: &mut Refusal) -> End {
        self.take(Instr::DefCfaOffset(offset), at, fault)
    }

    #[inline(always)]
    fn set(&mut self, register: u16, rule: RegRule<'a>, at: u64, fault: &mut Refusal) -> End {
        self.take(Instr::Set(register, rule), at, fault)
    }

    #[inline(always)]
    fn take_bare(&mut self, opcode: Opcode, at: u64, fault: &mut Refusal) -> End {
        self.take(bare(opcode), at, fault)
    }

    #[inline(always)]
    fn is_above(&self, _address: u64) -> bool {
        false
    }
}

// The instruction at the front of a program, its factors multiplied out, or its first fault: an opcode that
// is no instruction's, then its operands' from left to right, then an offset that is too large.
#[tactic(auto, using(crate::proofs::Turns::in_limit))]
fn read_instr<'a>(cursor: &mut Cursor<'a>, factors: Factors) -> Result<Instr<'a>, Refusal>
    ensures exact { Gives (λ i. i) result (instr_at factors cursor.old) cursor.new }
{
    let mut noted = Noted { instr: Instr::Nop };
    let code = Code::Truncated;
    let mut fault = Refusal { code, at: 0 };
    match execute(cursor, factors, &mut noted, &mut fault) {
        End::On => Ok(noted.instr),
        End::Refused => Err(fault),
        End::Moved | End::OutOfMemory => unreachable!(),
    }
}

/// An iterator over the instructions of a program (6.4.2, 7.24), which ends after its first fault. A contract sees the instructions that are still to come,
/// and the fault that comes behind them. Takes no memory.
///
/// The faults of an instruction, in this order: `UnknownInstruction` (12) at its opcode; of each operand from left to right, at its first byte, `Truncated`
/// (1), `NumberTooLarge` (8), and `RegisterTooLarge` (9) of a register; of a block `Truncated` (1) at the first byte of its contents where they pass the
/// program's end, else the block's own first fault, which is one of `ExprRef::accept` (1, 8, 9, 20 to 23); `OffsetTooLarge` (19) at the opcode. Places count
/// from the program's `at`.
#[derive(Drop)]
pub struct Instructions<'a> {
    cursor: Cursor<'a>,
    factors: Factors,
    has_ended: bool,
}

impl<'a> Model for Instructions<'a> {
    ghost use Rattle.dw_cfa.specs.{Listing.Listing, Inner.Listing.left_of};

    ghost Value = { Listing };

    ghost view = { λ s. left_of s.has_ended s.factors s.cursor };
}

impl<'a> Instructions<'a> {
    /// The instructions of a program, with the factors of a CIE multiplied out. A fault's place is one of the
    /// section: the program's place, and what was passed.
    pub fn new(program: Program<'a>, factors: Factors, target: Target) -> Instructions<'a>
        // The bytes are a program of these instructions, and of no others.
        ensures program { (instrs : List Instr) → ProgramSpells target factors instrs program.entry.bytes.now ↔ result ≡ complete instrs }
        // Behind these instructions stands this fault, and no other.
        ensures fault { (instrs : List Instr) (r : Refusal) →
            ProgramFault target factors program.entry.at program.entry.bytes.now instrs r ↔ result ≡ faulty instrs r }
        // Its place is in the program, or the program's end.
        ensures place { IfSome result.fault (λ r. (program.entry.at ≤ r.at) × (r.at ≤ program.entry.at + length program.entry.bytes.now)) }
    {
        are_bytes(program.bytes);
        Instructions {
            cursor: Cursor::new(program.bytes, program.at, target),
            factors,
            has_ended: false,
        }
    }

    #[tactic(auto, using(crate::proofs::Lent::Listings::yields), unfolding(crate::specs::Inner::Listing::left_of))]
    fn step(&mut self) -> Option<Result<Instr<'a>, Refusal>>
        ensures { Yields self.old result self.new }
    {
        if self.has_ended || self.cursor.left() == 0 {
            return None;
        }
        are_bytes(self.cursor.rest());
        match read_instr(&mut self.cursor, self.factors) {
            Ok(instr) => Some(Ok(instr)),
            Err(refusal) => {
                self.has_ended = true;
                Some(Err(refusal))
            }
        }
    }
}

impl<'a> Iterator for Instructions<'a> {
    type Item = Result<Instr<'a>, Refusal>;

    ghost next_gives = { YieldsFirst answers };

    ghost remaining = { item_count answers };

    fn next(&mut self) -> Option<Result<Instr<'a>, Refusal>> {
        self.step()
    }
}
