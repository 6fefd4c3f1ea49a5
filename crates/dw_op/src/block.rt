//! Blocks: judged without memory, and as lists of operations.

ghost use Rattle.std.specs.Prelude.{◌≡◌, List, [], map, MatchResult, IfOk, IfErr, OnOk, ◌⊎◌, None, Some, Ok, Err, false};
ghost use Rattle.dw_num.specs.{Refusals.Refuses, declared.refusal.Refusal.Refusal};
ghost use Rattle.dw_op.specs.{Expression.bare, Faults.{IsBlock, BlockFault, IsWithin}, declared.op.Op.Op, declared.profile.Profile.TheVariants.Frame};
ghost use Rattle.dw_op.specs.Inner.{Accepted.{IsAccepted, IsDecoded}, Walk.{walk, block_input, decode_at}};

use crate::list::OpList;
use crate::op::Op;
use crate::operation::{Step, next_step};
use crate::profile::Profile;
use crate::walk::{Measure, Walker};
use dw_num::{Cursor, ReadError, Refusal, Target, are_bytes};
use std::alloc::Global;

/// Reads a block to its end, and says whether it has a branch.
#[tactic(auto, using(crate::proofs::Splits::step_shorter))]
fn has_branch(bytes: &[u8], target: Target, profile: Profile) -> Result<bool, Refusal>
    ensures read { IfOk result (λ b. (walk profile (block_input target bytes.now)).fault ≡ None) }
    ensures plain { IfOk result (λ b. b ≡ false → IsDecoded profile target bytes.now) }
    ensures first { IfErr result (λ r. (walk profile (block_input target bytes.now)).fault ≡ Some r) }
{
    are_bytes(bytes);
    let mut cursor = Cursor::new(bytes, 0, target);
    let mut found = false;
    'ops: while cursor.left() > 0 {
        match next_step(&mut cursor, profile)? {
            Step::Plain(_) => {}
            Step::Jump(_, _) => found = true,
        }
    }
    Ok(found)
}

/// Whether bytes are a block of the frame profile, or their first fault. Only branches need a walker.
#[tactic(auto, using(crate::proofs::Judgement::judging))]
pub(crate) fn judge(bytes: &[u8], target: Target) -> Result<(), Refusal>
    ensures found { IfOk result (λ _. IsAccepted target bytes.now) }
    ensures first { IfErr result (λ r. decode_at Frame (block_input target bytes.now) ≡ Err r) }
{
    if !has_branch(bytes, target, Profile::Frame)? {
        return Ok(());
    }
    let mut walker = Walker::new(bytes, target, Measure::Operations);
    'ops: while let Some(_) = walker.next_op()? {}
    Ok(())
}

// Fills a list with the operations of a block, up to its first fault.
#[tactic(auto, using(crate::proofs::Judgement::judging))]
fn decode_ops<'a>(
    bytes: &'a [u8],
    target: Target,
    profile: Profile,
    ops: &mut Vec<Op<'a>>,
) -> Result<(), ReadError>
    requires { ops.old.items ≡ [] }
    ensures found { OnOk result (decode_at profile (block_input target bytes.now) ≡ Ok (map bare ops.new.items)) }
    ensures first { IfErr result (Refuses (λ r. decode_at profile (block_input target bytes.now) ≡ Err r)) }
{
    has_branch(bytes, target, profile)?;
    let mut walker = Walker::new(bytes, target, Measure::Operations);
    'ops: while let Some(op) = walker.next_op()? {
        ops.push(op)?;
    }
    Ok(())
}

/// The operations of a block for a target, or the first fault that keeps it from being a block of the profile (2.5 and 7.7.1).
///
/// Operations are read from left to right. The first one that cannot be read is refused: at its opcode by `UnknownOperation` (20) and, in the frame profile,
/// by `NotInFrame` (21); at the operand by `Truncated` (1), `NumberTooLarge` (8), `RegisterTooLarge` (9) or `BadDerefSize` (23). Where all are read,
/// `BadBranch` (22) comes at the opcode of the first branch that leads to no operation's start and not to the end. Places count from the block's first byte.
/// `OutOfMemory` may come in place of any answer: memory is taken for the operations.
#[tactic(auto, using(crate::proofs::Lent::Blocks::fault_found, crate::proofs::Decoded::decoded_in_range))]
pub fn decode<'a>(
    alloc: Global,
    bytes: &'a [u8],
    target: Target,
    profile: Profile,
) -> Result<OpList<'a>, ReadError>
    // What is answered has this block.
    ensures found { IfOk result (λ list. (list.target ≡ target) × IsBlock profile target list.ops bytes.now) }
    // Operations that have this block are answered.
    ensures only { (ops : List Op) → IsBlock profile target ops bytes.now → MatchResult result (λ list. list.ops ≡ ops) (λ e. e ≡ ReadError.OutOfMemory) }
    // A refusal is the first fault.
    ensures first { IfErr result (Refuses (BlockFault profile target bytes.now)) }
    // Its place is in the block or at its end.
    ensures within { IfErr result (Refuses (IsWithin bytes.now)) }
{
    are_bytes(bytes);
    let mut ops = Vec::new(alloc);
    decode_ops(bytes, target, profile, &mut ops)?;
    Ok(OpList { target, ops })
}

/// The first fault of a block is one, and a block with operations has none, as it has one list of them.
#[tactic(auto, using(crate::proofs::Decoded::one_list))]
pub fn one_answer(bytes: &[u8], target: Target, profile: Profile)
    ensures one_fault { (r q : Refusal) → BlockFault profile target bytes.now r → BlockFault profile target bytes.now q → r ≡ q }
    ensures no_fault { (ops : List Op) (r : Refusal) → IsBlock profile target ops bytes.now → BlockFault profile target bytes.now r → ⊥ }
    ensures one_list { (ops others : List Op) → IsBlock profile target ops bytes.now → IsBlock profile target others bytes.now → ops ≡ others }
    ensures some_answer { ((ops : List Op) × IsBlock profile target ops bytes.now) ⊎ ((r : Refusal) × BlockFault profile target bytes.now r) }
{
    are_bytes(bytes);
}
