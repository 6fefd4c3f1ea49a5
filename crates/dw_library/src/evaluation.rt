//! An expression that is evaluated by itself.

ghost use Rattle.std.specs.Prelude.{◌≡◌, ◌⊎◌, Err};
ghost use Rattle.dw_eval.specs.declared.error.EvalError.TheVariants.{OutOfMemory};
ghost use Rattle.dw_library.specs.{Answers.target_of, CallerFrame.held_in, Evaluation.{IsEvaluated, Told, ValueOf, known_if}};

use crate::answer::{Refused, refuse, target_of};
use crate::caller::{Fault, fault_of_kind};
use crate::held::{Held, give_all};
use crate::names::Status;
use dw_eval::{Env, EvalError, Registers, evaluate};
use dw_num::ReadError;
use dw_op::{OpList, Profile, decode};
use dw_unwind::Column;
use std::alloc::Global;

/// What an expression begins with, and what it may ask for (2.5.1). Each of the first four values counts where what it is named by is not 0.
#[repr(C)]
#[derive(Clone, Copy)]
pub struct Context {
    /// What the stack begins with. Where `has_start` is 0 it begins empty.
    pub start: u64,
    /// The frame base (`DW_AT_frame_base`, 3.3.5), which `DW_OP_fbreg` asks for.
    pub frame_base: u64,
    /// The canonical frame address (6.4), which `DW_OP_call_frame_cfa` asks for.
    pub cfa: u64,
    /// The address of the object (2.5.1.3), which `DW_OP_push_object_address` asks for.
    pub object: u64,
    /// How many operations may be executed.
    pub steps: u64,
    /// The size of an address, 4 or 8.
    pub address_size: u32,
    /// 0 for little-endian and 1 for big-endian.
    pub byte_order: u32,
    /// Not 0 where the stack begins with `start`.
    pub has_start: u8,
    /// Not 0 where the frame base is known.
    pub has_frame_base: u8,
    /// Not 0 where the canonical frame address is known.
    pub has_cfa: u8,
    /// Not 0 where the object's address is known.
    pub has_object: u8,
    /// 0. It is not looked at.
    pub reserved: u32,
}

fn known_if(has: u8, value: u64) -> Option<u64>
    ensures { result ≡ known_if has value }
{
    (has != 0).then_some(value)
}

fn value_of(
    alloc: Global,
    list: &OpList<'_>,
    context: &Context,
    held: &Held<'_>,
) -> Result<u64, EvalError>
    ensures { (result ≡ Err OutOfMemory) ⊎ ValueOf list.now.target list.now.ops context.now (held_in held.now) result }
{
    let mut registers = Registers::new(alloc);
    let Ok(()) = give_all(&mut registers, held.registers) else {
        return Err(EvalError::OutOfMemory);
    };
    let env = Env {
        target: list.target(),
        registers: &registers,
        frame_base: known_if(context.has_frame_base, context.frame_base),
        cfa: known_if(context.has_cfa, context.cfa),
        object: known_if(context.has_object, context.object),
    };
    let start = known_if(context.has_start, context.start);
    evaluate(alloc, list, start, &env, &mut { *held }, context.steps)
}

/// The value of an expression by itself (2.5), whose block is read for a location description's operations: what is on top of the
/// stack at its end. Where it has none, the fault says why and at which operation, and what was wanted.
#[unsafe(no_mangle)]
pub extern "C" fn dwframe_evaluate(
    alloc: Global,
    block: &[u8],
    context: &Context,
    held: &Held<'_>,
    value: &mut u64,
    refused: &mut Refused,
    fault: &mut Fault,
) -> u32
    ensures { let told : Told = record { status = result; value = value.new; refusal = refused.new; fault = fault.new } in
        IsEvaluated (target_of context.now.address_size context.now.byte_order) block.now context.now (held_in held.now) told }
{
    *value = 0;
    *refused = Refused::default();
    *fault = Fault::default();
    let Some(target) = target_of(context.address_size, context.byte_order) else {
        return Status::BadArgument as u32;
    };
    match decode(alloc, block, target, Profile::Location) {
        Ok(list) => match value_of(alloc, &list, context, held) {
            Ok(found) => {
                *value = found;
                Status::Ok as u32
            }
            Err(EvalError::Fault { kind, index }) => {
                *fault = fault_of_kind(kind, index, Column::Register(0));
                Status::NoValue as u32
            }
            Err(EvalError::OutOfMemory) => Status::OutOfMemory as u32,
        },
        Err(ReadError::Refused(refusal)) => refuse(refused, 1, refusal),
        Err(ReadError::OutOfMemory) => Status::OutOfMemory as u32,
    }
}
