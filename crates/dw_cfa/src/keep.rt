//! What is done with the instructions of a program, one after another.

ghost use Rattle.std.specs.Prelude.{◌≡◌, ℕ, ◌≤◌, false, nat_lt, true};
ghost use Rattle.dw_num.specs.declared.refusal.{Refusal.{Refusal}};
ghost use Rattle.dw_cfa.specs.declared.{instr.Instr.Instr, machine.{End.End, Machine.Machine}};
ghost use Rattle.dw_cfa.specs.declared.instr.Instr.TheVariants.{Advance, DefCfa, DefCfaOffset, RememberState, RestoreState, Set};
ghost use Rattle.dw_cfa.specs.Inner.{ByOpcode.bare_of, Machine.IsCfaBehind, Steps.InLimit, Turns.{Did, IsWithinLimit, cie_machine}};

use crate::instr::Instr;
use crate::machine::{End, Machine, refuse};
use crate::opcode::Opcode;
use dw_num::{Code, Refusal};
use dw_row::{CfaRule, RegRule, Row};

const MOST_REMEMBERED: usize = 64;

/// What takes the instructions of a program: a run, which is that of a machine, or a note of the last one.
pub(crate) trait Keep<'a> {
    ghost machine: { Self → Machine };

    // It takes the instruction of a place, and ends so, or is refused so.
    ghost takes: { Self → Instr → ℕ → End → Refusal → Self → Type 0 };

    /// Takes an instruction, which names no address above the limit.
    fn take(&mut self, instr: Instr<'a>, at: u64, fault: &mut Refusal) -> End
        requires within { IsWithinLimit (machine self.old) }
        requires limit { InLimit (machine self.old).limit instr }
        ensures { takes self.old instr.entry at result fault.new self.new };

    /// Takes one that moves the location on.
    fn advance(&mut self, distance: u128, at: u64, fault: &mut Refusal) -> End
        requires { IsWithinLimit (machine self.old) }
        ensures { takes self.old (Advance distance) at result fault.new self.new };

    /// Takes one by which the CFA is a register plus an offset.
    fn def_cfa(&mut self, register: u16, offset: i64, at: u64, fault: &mut Refusal) -> End
        requires { IsWithinLimit (machine self.old) }
        ensures { takes self.old (DefCfa register offset) at result fault.new self.new };

    /// Takes one by which the CFA is the same register plus another offset.
    fn def_cfa_offset(&mut self, offset: i64, at: u64, fault: &mut Refusal) -> End
        requires { IsWithinLimit (machine self.old) }
        ensures { takes self.old (DefCfaOffset offset) at result fault.new self.new };

    /// Takes one that gives a register a rule.
    fn set(&mut self, register: u16, rule: RegRule<'a>, at: u64, fault: &mut Refusal) -> End
        requires { IsWithinLimit (machine self.old) }
        ensures { takes self.old (Set register rule.entry) at result fault.new self.new };

    /// Takes one that has no operands behind its opcode.
    fn take_bare(&mut self, opcode: Opcode, at: u64, fault: &mut Refusal) -> End
        requires { IsWithinLimit (machine self.old) }
        ensures { takes self.old (bare_of opcode) at result fault.new self.new };

    /// Whether the location is above an address.
    fn is_above(&self, address: u64) -> bool
        ensures { result ≡ nat_lt address (machine self.now).location };
}

/// The instruction of an opcode behind which no operands stand.
#[inline(always)]
pub(crate) fn bare<'a>(opcode: Opcode) -> Instr<'a>
    ensures { result ≡ bare_of opcode }
{
    match opcode {
        Opcode::Restore(register) => Instr::Restore(register),
        Opcode::RememberState => Instr::RememberState,
        Opcode::RestoreState => Instr::RestoreState,
        _ => Instr::Nop,
    }
}

/// The CFA's rule behind an instruction (6.4.2.2), or none where that keeps half of a rule that has none.
#[inline(always)]
pub(crate) fn cfa_behind<'a>(instr: Instr<'a>, cfa: &CfaRule<'a>) -> Option<CfaRule<'a>>
    ensures { IsCfaBehind instr.entry cfa.now result }
{
    match instr {
        Instr::DefCfa { register, offset } => Some(CfaRule::Register { register, offset }),
        Instr::DefCfaExpression(expression) => Some(CfaRule::Expression(expression)),
        Instr::DefCfaRegister(register) => match *cfa {
            CfaRule::Register { offset, .. } => Some(CfaRule::Register { register, offset }),
            _ => None,
        },
        Instr::DefCfaOffset(offset) => match *cfa {
            CfaRule::Register { register, .. } => Some(CfaRule::Register { register, offset }),
            _ => None,
        },
        _ => Some(cfa.copied()),
    }
}

impl<'a> Machine<'a> {
    // Remembers the row (6.4.2.4).
    #[inline(always)]
    fn remember(&mut self, at: u64, fault: &mut Refusal) -> End
        requires { IsWithinLimit self.old }
        ensures { Did false RememberState at self.old result fault.new self.new }
    {
        if self.states.depth() >= MOST_REMEMBERED {
            return refuse(Code::StateStackFull, at, fault);
        }
        match self.states.remember() {
            Ok(()) => End::On,
            Err(_) => End::OutOfMemory,
        }
    }

    // Goes back to the row that was remembered last (6.4.2.4).
    #[inline(always)]
    fn recall(&mut self, at: u64, fault: &mut Refusal) -> End
        requires { IsWithinLimit self.old }
        ensures { Did false RestoreState at self.old result fault.new self.new }
    {
        match self.states.restore() {
            Ok(true) => End::On,
            Ok(false) => refuse(Code::EmptyStateStack, at, fault),
            Err(_) => End::OutOfMemory,
        }
    }
}

impl<'a> Keep<'a> for Machine<'a> {
    ghost machine = { λ m. m };

    ghost takes = { λ m i at end fault m'. Did false i at m end fault m' };

    #[inline(always)]
    fn take(&mut self, instr: Instr<'a>, at: u64, fault: &mut Refusal) -> End {
        match instr {
            Instr::Nop => End::On,
            Instr::SetLoc(address) => {
                let address = u128::from(address);
                if address < self.location {
                    return refuse(Code::LocationBackwards, at, fault);
                }
                self.location = address;
                End::Moved
            }
            Instr::Advance(distance) => self.advance(distance, at, fault),
            Instr::Set(register, rule) => self.set(register, rule, at, fault),
            Instr::Restore(register) => self.take_bare(Opcode::Restore(register), at, fault),
            Instr::RememberState => self.remember(at, fault),
            Instr::RestoreState => self.recall(at, fault),
            definition => match cfa_behind(definition, self.states.row().cfa_rule()) {
                Some(rule) => {
                    self.states.set_cfa(rule);
                    End::On
                }
                None => refuse(Code::CfaNotRegister, at, fault),
            },
        }
    }

    // What most programs have is taken in line.
    #[inline(always)]
    fn advance(&mut self, distance: u128, at: u64, fault: &mut Refusal) -> End {
        if distance > self.limit - self.location {
            return refuse(Code::LocationTooLarge, at, fault);
        }
        self.location += distance;
        End::Moved
    }

    #[inline(always)]
    fn def_cfa(&mut self, register: u16, offset: i64, _at: u64, _fault: &mut Refusal) -> End {
        self.states.set_cfa(CfaRule::Register { register, offset });
        End::On
    }

    #[inline(always)]
    fn def_cfa_offset(&mut self, offset: i64, at: u64, fault: &mut Refusal) -> End {
        if !self.states.set_cfa_offset(offset) {
            return refuse(Code::CfaNotRegister, at, fault);
        }
        End::On
    }

    #[inline(always)]
    fn set(&mut self, register: u16, rule: RegRule<'a>, _at: u64, _fault: &mut Refusal) -> End {
        match self.states.set(register, rule) {
            Ok(()) => End::On,
            Err(_) => End::OutOfMemory,
        }
    }

    #[inline(always)]
    fn take_bare(&mut self, opcode: Opcode, at: u64, fault: &mut Refusal) -> End {
        match opcode {
            Opcode::Restore(register) => match self.states.set_as(&self.initial, register) {
                Ok(()) => End::On,
                Err(_) => End::OutOfMemory,
            },
            Opcode::RememberState => self.remember(at, fault),
            Opcode::RestoreState => self.recall(at, fault),
            _ => End::On,
        }
    }

    #[inline(always)]
    fn is_above(&self, address: u64) -> bool {
        self.location > u128::from(address)
    }
}

/// A CIE's program gives rules to one row, and nothing else (6.4.1).
impl<'a> Keep<'a> for Row<'a> {
    ghost machine = { cie_machine };

    ghost takes = { λ row i at end fault row'. Did true i at (cie_machine row) end fault (cie_machine row') };

    #[inline(always)]
    fn take(&mut self, instr: Instr<'a>, at: u64, fault: &mut Refusal) -> End {
        match instr {
            Instr::Nop => End::On,
            Instr::Set(register, rule) => match Row::set(self, register, rule) {
                Ok(()) => End::On,
                Err(_) => End::OutOfMemory,
            },
            Instr::SetLoc(_)
            | Instr::Advance(_)
            | Instr::Restore(_)
            | Instr::RememberState
            | Instr::RestoreState => refuse(Code::NotInCie, at, fault),
            definition => match cfa_behind(definition, self.cfa_rule()) {
                Some(rule) => {
                    self.set_cfa(rule);
                    End::On
                }
                None => refuse(Code::CfaNotRegister, at, fault),
            },
        }
    }

    #[inline(always)]
    fn advance(&mut self, distance: u128, at: u64, fault: &mut Refusal) -> End {
        self.take(Instr::Advance(distance), at, fault)
    }

    #[inline(always)]
    fn def_cfa(&mut self, register: u16, offset: i64, at: u64, fault: &mut Refusal) -> End {
        self.take(Instr::DefCfa { register, offset }, at, fault)
    }

    #[inline(always)]
    fn def_cfa_offset(&mut self, offset: i64, at: u64, fault: &mut Refusal) -> End {
        self.take(Instr::DefCfaOffset(offset), at, fault)
    }

    #[inline(always)]
    fn set(&mut self, register: u16, rule: RegRule<'a>, at: u64, fault: &mut Refusal) -> End {
        self.take(Instr::Set(register, rule), at, fault)
    }

    #[inline(always)]
    fn take_bare(&mut self, opcode: Opcode, at: u64, fault: &mut Refusal) -> End {
        self.take(bare(opcode), at, fault)
    }

    fn is_above(&self, _address: u64) -> bool {
        false
    }
}
