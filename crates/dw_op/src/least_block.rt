//! Blocks of least spellings: of a list of operations, and of a block.

ghost use Rattle.std.specs.Prelude.{◌≡◌, ℕ, ◌+◌, ◌-◌, ◌<◌, ◌^◌, ◌++◌, List, length, map, take, Some, MatchOption, IfOk, IfErr, OnOk};
ghost use Rattle.dw_op.specs.{Block.{Block, branch_target}, Expression.bare, Least.LeastBlock, LeastBlock.IsEncodeError};
ghost use Rattle.dw_op.specs.{Ranges.{AllInRange, TargetWithin}, declared.least_block.EncodeError.TheVariants.OutOfMemory};
ghost use Rattle.dw_op.specs.Inner.{Accepted.{IsAccepted, ops_of}, LeastBlock.{blank_parts, least_block, least_len, AreStarts, AreBits, IsWritten}};
ghost use Rattle.dw_op.specs.Inner.Sums.{IsNear, bits_to};

use crate::expression::OpSteps;
use crate::least::{op_least_len, put_op};
use crate::list::OpList;
use crate::op::Op;
use crate::walk::{Measure, Walker};
use dw_num::{Target, are_bytes};
use std::alloc::{AllocError, Global};
use thiserror::Error;

/// Why a list of operations is not encoded.
#[derive(Clone, Copy, Debug, PartialEq, Eq, Error)]
pub enum EncodeError {
    /// The displacement of a branch does not fit 16 signed bits. `index` is the branch's in the list, counted from 0.
    #[error("BranchTooFar at operation {index}")]
    BranchTooFar { index: usize },
    /// Memory ran out.
    #[error("out of memory")]
    OutOfMemory,
}

impl From<AllocError> for EncodeError {
    ghost use Rattle.std.specs.Prelude.{◌≡◌};

    ghost from_gives = { λ _ e. e ≡ OutOfMemory };

    fn from(_failed: AllocError) -> EncodeError {
        EncodeError::OutOfMemory
    }
}

fn branch_target(op: &Op<'_>) -> Option<usize>
    ensures { result ≡ branch_target (bare op.now) }
{
    match *op {
        Op::Bra(index) | Op::Skip(index) => Some(index),
        _ => None,
    }
}

// The sixteen bits of a displacement, unless it does not fit them.
fn displacement_bits(from: usize, to: usize) -> Option<u16>
    ensures { MatchOption result (IsNear from (Some to) → ⊥) (λ bits. IsNear from (Some to) × (bits ≡ bits_to from (Some to))) }
{
    if from <= to && to - from <= 0x7fff {
        Some((to - from) as u16)
    } else if to < from && from - to <= 0x8000 {
        Some((0x1_0000 - (from - to)) as u16)
    } else {
        None
    }
}

// The sixteen bits of the displacement of a branch, 0 for another operation.
fn branch_bits(op: &Op<'_>, index: usize, starts: &[usize]) -> Option<u16>
    requires known { index + 1 < length starts.now }
    requires within { TargetWithin (length starts.now - 1) (branch_target (bare op.now)) }
    ensures { (parts : List (List ℕ)) (n : ℕ) → AreStarts parts n starts.now → AreBits parts index (branch_target (bare op.now)) result }
{
    let Some(goal) = branch_target(op) else {
        return Some(0);
    };
    displacement_bits(starts[index + 1], starts[goal])
}

// Where the least spelling of each operation begins, and where the last one ends.
fn least_starts(alloc: Global, ops: &[Op<'_>], target: Target) -> Result<Vec<usize>, AllocError>
    ensures { IfOk result (λ starts. AreStarts (blank_parts target (map bare ops.now)) (length ops.now) starts.items) }
{
    let mut starts = Vec::new(alloc);
    let mut end = 0usize;
    starts.push(end)?;
    for op in ops {
        let Some(next) = end.checked_add(op_least_len(op, target)) else {
            return Err(AllocError);
        };
        end = next;
        starts.push(end)?;
    }
    Ok(starts)
}

// Appends the least spellings, whose places are known, and may leave some of them.
fn push_ops(
    out: &mut Vec<u8>,
    ops: &[Op<'_>],
    target: Target,
    starts: &[usize],
) -> Result<(), EncodeError>
    requires in_range { AllInRange target (map bare ops.now) }
    requires starts { AreStarts (blank_parts target (map bare ops.now)) (length ops.now) starts.now }
    ensures ok { OnOk result (IsWritten target (map bare ops.now) out.old.items out.new.items) }
    ensures err { IfErr result (IsEncodeError target (map bare ops.now)) }
{
    for (index, op) in ops.iter().enumerate() {
        let Some(bits) = branch_bits(op, index, starts) else {
            return Err(EncodeError::BranchTooFar { index });
        };
        put_op(out, op, bits, target)?;
    }
    Ok(())
}

/// The block (2.5, 7.7.1) of the operations' least spellings: no block of the same operations is shorter. `BranchTooFar` names the first branch whose
/// displacement does not fit 16 signed bits; the operations then have no block. Takes memory for the block and for a number an operation.
#[tactic(auto, using(crate::proofs::Lent::LeastBlocks::least_block_is))]
pub fn encode(alloc: Global, list: &OpList<'_>) -> Result<Vec<u8>, EncodeError>
    // What is answered is the least block.
    ensures ok { IfOk result (λ block. LeastBlock list.now.target list.now.ops block.items) }
    // A refusal names the first branch too far.
    ensures far { IfErr result (IsEncodeError list.now.target list.now.ops) }
    // Operations that have a block are refused for memory alone.
    ensures only { (bytes : List ℕ) → Block list.now.target list.now.ops bytes → IfErr result (λ error. error ≡ OutOfMemory) }
{
    let target = list.target();
    let ops = list.ops();
    let starts = least_starts(alloc, ops, target)?;
    let mut block = Vec::new(alloc);
    match push_ops(&mut block, ops, target, &starts) {
        Ok(()) => Ok(block),
        Err(error) => Err(error),
    }
}

/// How long the least spellings of the operations of a walk are together.
pub(crate) fn steps_len(mut steps: OpSteps<'_>, target: Target) -> usize
    requires { least_len target steps < 2 ^ 63 }
    ensures { result ≡ least_len target steps.entry }
{
    let mut total = 0usize;
    'ops: while let Some(op) = steps.step() {
        total += op_least_len(&op, target);
    }
    total
}

// The sixteen bits of the displacement of a branch that ends here and has where it goes, 0 for another operation.
fn near_bits(end: usize, op: &Op<'_>) -> u16
    requires { IsNear end (branch_target (bare op.now)) }
    ensures { result ≡ bits_to end (branch_target (bare op.now)) }
{
    match branch_target(op) {
        Some(start) => displacement_bits(end, start).unwrap_or(0),
        None => 0,
    }
}

/// Appends the least spellings of the operations of a block. It may leave some of them where memory runs out.
#[tactic(auto, using(crate::proofs::LeastSpellings::putting))]
pub(crate) fn put_block(bytes: &[u8], target: Target, out: &mut Vec<u8>) -> Result<(), AllocError>
    requires { IsAccepted target bytes.now }
    ensures all { OnOk result (out.new.items ≡ out.old.items ++ least_block target (ops_of target bytes.now)) }
    ensures front { take (length out.old.items) out.new.items ≡ out.old.items }
{
    are_bytes(bytes);
    let mut walker = Walker::new(bytes, target, Measure::LeastBytes);
    'ops: while let Ok(next) = walker.next_op() {
        let Some(op) = next else {
            return Ok(());
        };
        put_op(out, &op, near_bits(walker.count, &op), target)?;
    }
    // No branch of an accepted block leads nowhere.
    unreachable!()
}
