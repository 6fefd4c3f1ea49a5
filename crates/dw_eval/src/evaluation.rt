//! Evaluation of an expression (2.5).

ghost use Rattle.std.specs.Prelude.{◌≡◌, ◌⊎◌, ℕ, ◌-◌, ◌^◌, ◌<◌, ◌≤◌, length, map, Err, MatchResult};
ghost use Rattle.dw_op.specs.{Expression.bare, Ranges.AllInRange};
ghost use Rattle.dw_eval.specs.{Context.context, Evaluation.{first_stack, EvaluatesIn, MayFailIn}};
ghost use Rattle.dw_eval.specs.declared.error.{EvalError.TheVariants.{Fault, OutOfMemory}, Kind.Kind, Kind.TheVariants.Device};
ghost use Rattle.dw_eval.specs.Inner.{Evaluation.EvaluatesOver, Steps.reached};

use crate::action::act;
use crate::arithmetic::reduced;
use crate::env::Env;
use crate::error::{EvalError, Kind};
use crate::memory::Memory;
use crate::stack::{Answer, Flow, Stack, Stop};
use dw_num::Size;
use dw_op::{Op, OpList};
use std::alloc::Global;

/// Where an operation's answer leads, or the error.
pub(crate) fn reached(answer: Answer, index: usize) -> Result<usize, EvalError>
    requires { index < 2 ^ 64 - 1 }
    ensures { result ≡ reached index answer }
{
    match answer {
        Ok(Flow::Next) => Ok(index + 1),
        Ok(Flow::Jump(target)) => Ok(target),
        Err(Stop::Fault(kind)) => Err(kind.at(index)),
        Err(Stop::Device) => Err(Kind::Device.at(index)),
        Err(Stop::OutOfMemory) => Err(EvalError::OutOfMemory),
    }
}

fn begin(alloc: Global, start: Option<u64>, size: Size) -> Result<Stack, EvalError>
    ensures { MatchResult result (λ s. s ≡ first_stack size start) (λ e. e ≡ OutOfMemory) }
{
    let mut stack = Stack::new(alloc);
    if let Some(value) = start {
        stack
            .put(reduced(value, size))
            .map_err(|_| EvalError::OutOfMemory)?;
    }
    Ok(stack)
}

fn run<M: Memory>(
    ops: &[Op<'_>],
    stack: &mut Stack,
    env: &Env<'_>,
    memory: &mut M,
    steps: u64,
) -> Result<u64, EvalError>
    requires range { AllInRange env.now.target (map bare ops.now) }
    requires room { M.failures memory.old < 2 ^ 64 - 1 }
    ensures same { M.byte memory.new ≡ M.byte memory.old }
    ensures so { EvaluatesOver (map bare ops.now) (context env.now (M.byte memory.old)) stack.old steps (M.failures memory.old) result (M.failures memory.new) }
{
    let mut index = 0;
    let mut taken = 0;
    'steps: while index < ops.len() {
        if taken >= steps {
            return Err(Kind::StepLimit.at(index));
        }
        let answer = act(&ops[index], stack, env, memory);
        index = reached(answer, index)?;
        taken += 1;
    }
    stack.get(0).ok_or(Kind::EmptyResult.at(ops.len()))
}

/// The value of an expression (2.5): the top of the stack when the end is reached. It is below 2^N, where an address has N bits. The stack begins with
/// `start` modulo 2^N alone, or empty; the list's target has to be that of the environment. `steps` is the most operations that are executed, those of a loop
/// counted each time; if the last of them leads to the end, that is no fault. Takes memory where the stack grows (`OutOfMemory`).
///
/// A fault names the operation that it comes from: `StepLimit` the one that is not executed since so many steps were taken, `EmptyResult` the end. `Device`
/// is answered exactly where the memory's count of failures grew; which of several reads failed is not said by the contract. All kinds of `Kind` may come but
/// `MissingPiece`.
pub fn evaluate<M: Memory>(
    alloc: Global,
    list: &OpList<'_>,
    start: Option<u64>,
    env: &Env<'_>,
    memory: &mut M,
    steps: u64,
) -> Result<u64, EvalError>
    requires target { list.now.target ≡ env.now.target }
    requires room { M.failures memory.old < 2 ^ 64 - 1 }
    // No byte of the memory changes.
    ensures same { M.byte memory.new ≡ M.byte memory.old }
    // The count of failures stays or grows.
    ensures counted { M.failures memory.old ≤ M.failures memory.new }
    // Where it stays, the answer is the expression's, or want of memory.
    ensures answered { M.failures memory.new ≡ M.failures memory.old →
        (result ≡ Err OutOfMemory) ⊎ EvaluatesIn list.now.ops start env.now (M.byte memory.old) steps result }
    // Where it grows, a read of an operation that is reached has failed.
    ensures failed { M.failures memory.old < M.failures memory.new →
        (i : ℕ) × (result ≡ Err (Fault Device i)) × MayFailIn list.now.ops start env.now (M.byte memory.old) steps i }
    // A fault's index is that of an operation, or the list's length.
    ensures within { (kind : Kind) (i : ℕ) → result ≡ Err (Fault kind i) → i ≤ length list.now.ops }
    // No other failure is named.
    ensures device { (i : ℕ) → result ≡ Err (Fault Device i) → M.failures memory.old < M.failures memory.new }
{
    let mut stack = begin(alloc, start, env.target.size)?;
    run(list.ops(), &mut stack, env, memory, steps)
}
