//! Operations that no block has: with operands out of range, and branches that reach too far.

use crate::sections::{BIG, LITTLE, compare};
use dw_num::Target;
use dw_op::{EncodeError, Op, OpList, encode};
use std::alloc::Global;
use std::test::Fail;

// Operations, and their block or the first that is out of range.
const LISTS: &[(&[Op<'static>], Target, &str)] = &[
    (&[Op::Bra(3), Op::Nop, Op::Skip(4)], LITTLE, "operand 2"),
    (&[Op::Bra(4), Op::Nop, Op::Skip(4)], LITTLE, "operand 0"),
    (
        &[Op::Bra(3), Op::DerefSize(8), Op::Skip(0)],
        LITTLE,
        "28050094082ff8ff",
    ),
    (
        &[Op::Bra(3), Op::DerefSize(8), Op::Skip(0)],
        BIG,
        "operand 1",
    ),
    (&[Op::Nop, Op::DerefSize(0), Op::Nop], LITTLE, "operand 1"),
    (&[Op::Nop, Op::Nop, Op::Const(1 << 32)], BIG, "operand 2"),
    (&[Op::Nop, Op::Addr(1 << 32), Op::Nop], BIG, "operand 1"),
    (
        &[Op::Nop, Op::Addr(1 << 32), Op::Reg(65_535)],
        LITTLE,
        "9603000000000100000090ffff03",
    ),
];

// How many nops, where the skip goes, whether it stands before them, and how the block begins or ends, or the branch that
// reaches too far.
const FAR: &[(usize, usize, bool, &str)] = &[
    (32_767, 32_768, true, "2fff7f96"),
    (32_768, 32_769, true, "branch 0"),
    (32_765, 0, false, "962f0080"),
    (32_766, 0, false, "branch 32766"),
];

// The block of some operations, or which of them is out of range or reaches too far.
fn block(alloc: Global, ops: Vec<Op<'static>>, target: Target) -> Result<String, Fail> {
    match OpList::from_ops(ops, target) {
        Ok(list) => match encode(alloc, &list) {
            Ok(bytes) => Ok(hex::encode(alloc, &bytes)?),
            Err(EncodeError::BranchTooFar { index }) => Ok(format!(in alloc; "branch {index}")?),
            Err(EncodeError::OutOfMemory) => Err(Fail::new("out of memory")),
        },
        Err(bad) => Ok(format!(in alloc; "operand {}", bad.index)?),
    }
}

// The block of a skip before or behind so many nops.
fn with_nops(alloc: Global, nops: usize, goal: usize, is_first: bool) -> Result<String, Fail> {
    let mut ops = Vec::new(alloc);
    if is_first {
        ops.push(Op::Skip(goal))?;
    }
    for _ in 0..nops {
        ops.push(Op::Nop)?;
    }
    if !is_first {
        ops.push(Op::Skip(goal))?;
    }
    block(alloc, ops, LITTLE)
}

fn list_is(alloc: Global, ops: &[Op<'static>], target: Target, wanted: &str) -> Result<(), Fail> {
    let text = block(alloc, Vec::from_slice(alloc, ops)?, target)?;
    compare("a list", text.as_str(), wanted)
}

// The block of a skip begins or ends so, or tells so.
fn skip_is(
    alloc: Global,
    nops: usize,
    goal: usize,
    is_first: bool,
    wanted: &str,
) -> Result<(), Fail> {
    let text = with_nops(alloc, nops, goal, is_first)?;
    if is_first {
        return compare("a skip", text.get(..wanted.len()).unwrap_or(""), wanted);
    }
    let front = text.len().saturating_sub(wanted.len());
    compare("a skip", text.get(front..).unwrap_or(""), wanted)
}

#[test]
fn lists_and_far_branches(rt: HostRuntime) -> Result<(), Fail> {
    for (ops, target, wanted) in LISTS {
        list_is(rt.alloc(), *ops, *target, *wanted)?;
    }
    for (nops, goal, is_first, wanted) in FAR {
        skip_is(rt.alloc(), *nops, *goal, *is_first, *wanted)?;
    }
    Ok(())
}
