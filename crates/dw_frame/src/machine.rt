//! The frame of the caller by the rules of a row (6.4.1): its columns, one after another.

ghost use Rattle.std.specs.Prelude.{◌≡◌, ◌⊎◌, ℕ, ◌+◌, ◌-◌, ◌^◌, ◌<◌, ◌≤◌, true, Option, IsTrue, OnOk, Err};
ghost use Rattle.dw_eval.specs.Context.{context};
ghost use Rattle.dw_row.specs.{Rows.{rule, is_specified}, declared.rule.{CfaRule.TheVariants.Unset, RegRule.TheVariants.Unspecified}};
ghost use Rattle.dw_cfa.specs.Fits.{CfaFits, RowFits, RuleFits};
ghost use Rattle.dw_frame.specs.{Columns.{defaulted, in_column, value_in}, Frames.{FrameFails, FrameIs, is_device, stopped}};
ghost use Rattle.dw_frame.specs.declared.frame.{UnwindError.{UnwindError as TheError}, UnwindError.TheVariants.OutOfMemory};
ghost use Rattle.dw_frame.specs.Inner.Recovery.{AddsOver, CfaOver, FrameOver, ListedBelow, RegisterOver, RegistersOver, SavedOver, ValueOver, lists};

use crate::frame::{Column, Frame, UnwindError};
use crate::frame_room::{FrameRegisters, FrameRoom};
use dw_eval::{
    Env, EvalError, Memory, Policy, ReadFault, Registers, evaluate, is_in_space, offset_by, reduced,
};
use dw_num::Target;
use dw_op::ExprRef;
use dw_row::{CfaRule, RegRule, Row};
use std::alloc::{AllocError, Global};

// A machine that stopped, what its unset registers are taken as, how many steps an expression may take, and the row that
// gives its caller, with the register that holds the return address.
#[derive(Clone, Copy)]
struct Machine<'m, 'a> {
    alloc: Global,
    env: Env<'m>,
    default: Policy,
    steps: u64,
    row: &'m Row<'a>,
    return_register: u16,
}

// An expression's answer, as that of a column.
fn in_column(answer: Result<u64, EvalError>, column: Column) -> Result<u64, UnwindError>
    ensures { result ≡ in_column column answer }
{
    match answer {
        Ok(value) => Ok(value),
        Err(EvalError::Fault { kind, index }) => Err(UnwindError::Eval {
            kind,
            index,
            column,
        }),
        Err(EvalError::OutOfMemory) => Err(UnwindError::OutOfMemory),
    }
}

impl<'m, 'a> Machine<'m, 'a> {
    fn value_in(&self, register: u16) -> Option<u64>
        ensures { (byte : ℕ → Option ℕ) → result ≡ value_in (context self.now.env byte) self.now.steps register }
    {
        let value = self.env.registers.get(register)?;
        Some(reduced(value, self.env.target.size))
    }

    // The address that memory holds at an address.
    fn saved_at<M: Memory>(
        &self,
        address: u64,
        column: Column,
        memory: &mut M,
    ) -> Result<u64, UnwindError>
        requires room { M.failures memory.old < 2 ^ 64 - 1 }
        ensures same { M.byte memory.new ≡ M.byte memory.old }
        ensures so { SavedOver self.now (M.byte memory.old) column address (M.failures memory.old) result (M.failures memory.new) }
    {
        let target = self.env.target;
        let len = usize::from(target.size.byte_count());
        let unreadable = UnwindError::Unreadable {
            column,
            address,
            len,
        };
        if !is_in_space(address, len, target.size) {
            return Err(unreadable);
        }
        match memory.read(address, len, target.order) {
            Ok(value) => Ok(value),
            Err(ReadFault::Unreadable) => Err(unreadable),
            Err(ReadFault::Device) => Err(UnwindError::Device { column }),
        }
    }

    // The value of an expression, whose stack holds a value at the start or is empty.
    fn value<M: Memory>(
        &self,
        expression: &ExprRef<'_>,
        start: Option<u64>,
        column: Column,
        memory: &mut M,
    ) -> Result<u64, UnwindError>
        requires target { expression.now.target ≡ self.now.env.target }
        requires room { M.failures memory.old < 2 ^ 64 - 1 }
        ensures same { M.byte memory.new ≡ M.byte memory.old }
        ensures so { ValueOver self.now (M.byte memory.old) column expression.now start (M.failures memory.old) result (M.failures memory.new) }
    {
        let list = expression.ops(self.alloc)?;
        let answer = evaluate(self.alloc, &list, start, &self.env, memory, self.steps);
        in_column(answer, column)
    }

    fn cfa<M: Memory>(&self, rule: &CfaRule<'_>, memory: &mut M) -> Result<u64, UnwindError>
        requires set { rule.now ≡ Unset → ⊥ }
        requires fits { CfaFits self.now.env.target rule.now }
        requires room { M.failures memory.old < 2 ^ 64 - 1 }
        ensures same { M.byte memory.new ≡ M.byte memory.old }
        ensures so { CfaOver self.now (M.byte memory.old) rule.now (M.failures memory.old) result (M.failures memory.new) }
    {
        match rule {
            CfaRule::Unset => unreachable!(),
            CfaRule::Register { register, offset } => match self.env.registers.get(*register) {
                Some(value) => Ok(offset_by(value, *offset, self.env.target.size)),
                None => Err(UnwindError::NoRegister {
                    column: Column::Cfa,
                    register: *register,
                }),
            },
            CfaRule::Expression(expression) => self.value(expression, None, Column::Cfa, memory),
        }
    }

    // What a register that no instruction has set was before.
    fn defaulted(&self, register: u16) -> Option<u64>
        ensures { (byte : ℕ → Option ℕ) → result ≡ defaulted self.now.default (value_in (context self.now.env byte) self.now.steps register) }
    {
        match self.default {
            Policy::SameValue => self.value_in(register),
            Policy::Undefined => None,
        }
    }

    // A register of the caller by its rule, None where it has no value that can be recovered.
    fn register<M: Memory>(
        &self,
        register: u16,
        rule: &RegRule<'_>,
        cfa: u64,
        memory: &mut M,
    ) -> Result<Option<u64>, UnwindError>
        requires fits { RuleFits self.now.env.target rule.now }
        requires room { M.failures memory.old < 2 ^ 64 - 1 }
        ensures same { M.byte memory.new ≡ M.byte memory.old }
        ensures so { RegisterOver self.now (M.byte memory.old) cfa register rule.now (M.failures memory.old) result (M.failures memory.new) }
    {
        let column = Column::Register(register);
        let size = self.env.target.size;
        match rule {
            RegRule::Unspecified => Ok(self.defaulted(register)),
            RegRule::Undefined => Ok(None),
            RegRule::SameValue => Ok(self.value_in(register)),
            RegRule::Offset(offset) => {
                let address = offset_by(cfa, *offset, size);
                self.saved_at(address, column, memory).map(Some)
            }
            RegRule::ValOffset(offset) => Ok(Some(offset_by(cfa, *offset, size))),
            RegRule::Register(other) => match self.value_in(*other) {
                Some(value) => Ok(Some(value)),
                None => Err(UnwindError::NoRegister {
                    column,
                    register: *other,
                }),
            },
            RegRule::Expression(expression) => {
                let address = self.value(expression, Some(cfa), column, memory)?;
                self.saved_at(address, column, memory).map(Some)
            }
            RegRule::ValExpression(expression) => {
                self.value(expression, Some(cfa), column, memory).map(Some)
            }
        }
    }

    // Whether a register that the row does not specify is listed.
    #[inline(always)]
    fn lists(&self, register: u16) -> bool
        ensures { rule self.now.row.now register ≡ Unspecified → result ≡ lists self.now register }
    {
        self.env.registers.get(register).is_some() || register == self.return_register
    }

    // Adds the listed registers from one number up to another one, of which the row specifies none.
    fn add_all_given(
        &self,
        from: usize,
        to: usize,
        cfa: u64,
        room: &mut FrameRoom,
    ) -> Result<(), AllocError>
        requires up { from ≤ to }
        requires most { to ≤ 65536 }
        requires unset { (r : ℕ) → from ≤ r → r < to → rule self.now.row.now r ≡ Unspecified }
        ensures { OnOk result ((byte : ℕ → Option ℕ) → ListedBelow self.now byte cfa from room.old → ListedBelow self.now byte cfa to room.new) }
    {
        'given: for index in from..to {
            let register = index as u16;
            if !self.lists(register) {
                continue;
            }
            room.push(register, self.defaulted(register))?;
        }
        Ok(())
    }

    // Adds the registers from a number on up to the next one that the row specifies.
    fn add<M: Memory>(
        &self,
        from: usize,
        register: u16,
        own: &RegRule<'_>,
        cfa: u64,
        memory: &mut M,
        room: &mut FrameRoom,
    ) -> Result<(), UnwindError>
        requires up { from ≤ register }
        requires unset { (r : ℕ) → from ≤ r → r < register → rule self.now.row.now r ≡ Unspecified }
        requires own { own.now ≡ rule self.now.row.now register }
        requires specified { IsTrue (is_specified own.now) }
        requires fits { RowFits self.now.env.target self.now.row.now }
        requires room { M.failures memory.old < 2 ^ 64 - 1 }
        requires so_far { ListedBelow self.now (M.byte memory.old) cfa from room.old }
        ensures same { M.byte memory.new ≡ M.byte memory.old }
        ensures so { AddsOver self.now (M.byte memory.old) cfa register room.new (M.failures memory.old) result (M.failures memory.new) }
    {
        let to = usize::from(register);
        self.add_all_given(from, to, cfa, room)?;
        let value = self.register(register, own, cfa, memory)?;
        room.push(register, value)?;
        Ok(())
    }

    // The registers of the caller: those that the row specifies, and before each one and behind the last those of the machine.
    fn registers<'r, M: Memory>(
        &self,
        cfa: u64,
        memory: &mut M,
        room: &'r mut FrameRoom,
    ) -> Result<FrameRegisters<'r>, UnwindError>
        requires fits { RowFits self.now.env.target self.now.row.now }
        requires room { M.failures memory.old < 2 ^ 64 - 1 }
        ensures same { M.byte memory.new ≡ M.byte memory.old }
        ensures so { RegistersOver self.now (M.byte memory.old) cfa (M.failures memory.old) result (M.failures memory.new) }
    {
        room.clear();
        let mut from = 0;
        'registers: for (register, own) in self.row.specified() {
            self.add(from, register, &own, cfa, memory, room)?;
            from = usize::from(register) + 1;
        }
        let returns = usize::from(self.return_register);
        let end = self.env.registers.end().max(returns + 1);
        self.add_all_given(from, from.max(end), cfa, room)?;
        Ok(room.lent())
    }

    fn frame<'r, M: Memory>(
        &self,
        memory: &mut M,
        room: &'r mut FrameRoom,
    ) -> Result<Frame<'r>, UnwindError>
        requires set { self.now.row.now.cfa ≡ Unset → ⊥ }
        requires fits { RowFits self.now.env.target self.now.row.now }
        requires room { M.failures memory.old < 2 ^ 64 - 1 }
        ensures same { M.byte memory.new ≡ M.byte memory.old }
        ensures so { FrameOver self.now (M.byte memory.old) (M.failures memory.old) result (M.failures memory.new) }
    {
        let cfa = self.cfa(&self.row.cfa(), memory)?;
        let registers = self.registers(cfa, memory, room)?;
        Ok(Frame {
            cfa,
            return_register: self.return_register,
            registers,
        })
    }
}

/// The frame by the rules of a row that was looked up, and by the return address register of its FDE. Answers and faults are
/// those of `unwind`, but for `NoFde`. The row may be one of `Table::row_at` or of `look_up`: its rules are in range
/// for the target, and its CFA has a rule. The registers are put into `room`, which may be that of an earlier call.
pub fn unwind_row<'r, M: Memory>(
    alloc: Global,
    row: &Row<'_>,
    return_register: u16,
    target: Target,
    room: &'r mut FrameRoom,
    registers: &Registers,
    memory: &mut M,
    default: Policy,
    steps: u64,
) -> Result<Frame<'r>, UnwindError>
    requires set { row.now.cfa ≡ Unset → ⊥ }
    requires fits { RowFits target row.now }
    requires room { M.failures memory.old < 2 ^ 64 - 1 }
    // No byte of the memory changes.
    ensures same { M.byte memory.new ≡ M.byte memory.old }
    // The count of failures stays or grows.
    ensures counted { M.failures memory.old ≤ M.failures memory.new }
    // Where it stays, the answer is the frame or the first fault, or want of memory.
    ensures answered { M.failures memory.new ≡ M.failures memory.old → (result ≡ Err OutOfMemory)
        ⊎ FrameIs (stopped target registers.now (M.byte memory.old)) steps default row.now return_register result }
    // Where it grows, a read of a column that is reached has failed.
    ensures failed { M.failures memory.old < M.failures memory.new → (e : TheError) × (result ≡ Err e) × (is_device e ≡ true)
        × FrameFails (stopped target registers.now (M.byte memory.old)) steps default row.now return_register e }
    // No other failure is named.
    ensures device { (e : TheError) → result ≡ Err e → is_device e ≡ true → M.failures memory.old < M.failures memory.new }
{
    let machine = Machine {
        alloc,
        env: Env {
            target,
            registers,
            frame_base: None,
            cfa: None,
            object: None,
        },
        default,
        steps,
        row,
        return_register,
    };
    machine.frame(memory, room)
}
