//! What a look-up keeps: a row and a location (6.4.3). What it does not know it leaves to the machine: it says then that memory
//! ran out, behind which nothing is known.

ghost use Rattle.std.specs.Prelude.{◌≡◌, ◌≤◌, ◌+◌, false, IfSome};
ghost use Rattle.dw_num.specs.Target.{address_limit};
ghost use Rattle.dw_row.specs.{Rows.blank, RegisterSets.SpecifiesIn};
ghost use Rattle.dw_cfa.specs.Inner.{LookUp.look_up_at, Turns.Did};

use crate::instr::Instr;
use crate::keep::{Keep, cfa_behind};
use crate::machine::{End, refuse};
use crate::opcode::Opcode;
use dw_num::{Code, Refusal, Size};
use dw_row::{CfaRule, NEAR, RegRule, Row, is_in};
use std::alloc::Global;
use std::snapshot::Snapshot;

/// A row, and what is needed to run an FDE's program from it on.
#[derive(Drop)]
pub(crate) struct LookUp<'a> {
    pub(crate) row: Row<'a>,
    // The initial row and the size of an address are not kept, but for clauses.
    initial: Snapshot<Row<'a>>,
    size: Snapshot<Size>,
    // The registers below 128 that the initial row specifies.
    specified: u128,
    location: u64,
    // The last location that is known: the end of the address space, or the last one that has 64 bits.
    last: u64,
    ghost known: { SpecifiesIn specified initial.value },
    ghost within: { last ≤ address_limit size.value },
}

// The location so much further on, where it is in the address space and known.
#[inline(always)]
fn next_location(location: u64, distance: u128, last: u64) -> Option<u64>
    ensures { IfSome result (λ next. (next ≡ location + distance) × (next ≤ last)) }
{
    let Ok(distance) = u64::try_from(distance) else {
        return None;
    };
    let Some(next) = location.checked_add(distance) else {
        return None;
    };
    if next > last {
        return None;
    }
    Some(next)
}

impl<'a> LookUp<'a> {
    /// A row in which nothing is set. Takes no memory.
    #[inline(always)]
    pub(crate) fn new(alloc: Global) -> LookUp<'a>
        ensures { result.row ≡ blank }
    {
        let row = Row::blank(alloc);
        let initial = Snapshot::of(&row);
        LookUp {
            row,
            initial,
            size: Snapshot::of(&Size::Eight),
            specified: 0,
            location: 0,
            last: 0,
        }
    }

    /// Begins an FDE's program at an address, with the row that it has as the initial one.
    #[inline(always)]
    pub(crate) fn begin(&mut self, location: u64, size: Size)
        ensures { ⟦<LookUp<'a> as Keep<'a>>⟧.machine self.new ≡ look_up_at self.old.row (address_limit size) self.old.row location }
    {
        self.initial = Snapshot::of(&self.row);
        self.size = Snapshot::of(&size);
        self.specified = self.row.near_mask();
        self.location = location;
        self.last = u64::try_from(size.address_limit()).unwrap_or(u64::MAX);
    }
}

impl<'a> Keep<'a> for LookUp<'a> {
    ghost machine = { λ k. look_up_at k.initial.value (address_limit k.size.value) k.row k.location };

    ghost takes = { λ k i at end fault k'. Did false i at
        (look_up_at k.initial.value (address_limit k.size.value) k.row k.location) end fault
        (look_up_at k'.initial.value (address_limit k'.size.value) k'.row k'.location) };

    #[inline(always)]
    fn take(&mut self, instr: Instr<'a>, at: u64, fault: &mut Refusal) -> End {
        match instr {
            Instr::Nop => End::On,
            Instr::SetLoc(address) => {
                if address < self.location {
                    return refuse(Code::LocationBackwards, at, fault);
                }
                self.location = address;
                End::Moved
            }
            Instr::Advance(distance) => self.advance(distance, at, fault),
            Instr::Set(register, rule) => self.set(register, rule, at, fault),
            Instr::Restore(register) => self.take_bare(Opcode::Restore(register), at, fault),
            Instr::RememberState => End::OutOfMemory,
            Instr::RestoreState => refuse(Code::EmptyStateStack, at, fault),
            definition => match cfa_behind(definition, self.row.cfa_rule()) {
                Some(rule) => {
                    self.row.set_cfa(rule);
                    End::On
                }
                None => refuse(Code::CfaNotRegister, at, fault),
            },
        }
    }

    #[inline(always)]
    fn advance(&mut self, distance: u128, _at: u64, _fault: &mut Refusal) -> End {
        let Some(next) = next_location(self.location, distance, self.last) else {
            return End::OutOfMemory;
        };
        self.location = next;
        End::Moved
    }

    #[inline(always)]
    fn def_cfa(&mut self, register: u16, offset: i64, _at: u64, _fault: &mut Refusal) -> End {
        self.row.set_cfa(CfaRule::Register { register, offset });
        End::On
    }

    #[inline(always)]
    fn def_cfa_offset(&mut self, offset: i64, at: u64, fault: &mut Refusal) -> End {
        if !self.row.set_cfa_offset(offset) {
            return refuse(Code::CfaNotRegister, at, fault);
        }
        End::On
    }

    #[inline(always)]
    fn set(&mut self, register: u16, rule: RegRule<'a>, _at: u64, _fault: &mut Refusal) -> End {
        match self.row.set(register, rule) {
            Ok(()) => End::On,
            Err(_) => End::OutOfMemory,
        }
    }

    #[inline(always)]
    fn take_bare(&mut self, opcode: Opcode, at: u64, fault: &mut Refusal) -> End {
        match opcode {
            Opcode::Restore(register) => {
                if register >= NEAR || is_in(self.specified, register) {
                    return End::OutOfMemory;
                }
                match self.row.set(register, RegRule::Unspecified) {
                    Ok(()) => End::On,
                    Err(_) => End::OutOfMemory,
                }
            }
            Opcode::RememberState => End::OutOfMemory,
            Opcode::RestoreState => refuse(Code::EmptyStateStack, at, fault),
            _ => End::On,
        }
    }

    #[inline(always)]
    fn is_above(&self, address: u64) -> bool {
        self.location > address
    }
}
