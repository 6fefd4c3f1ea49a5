//! Lists of operations that are in range for a target.

ghost use Rattle.std.specs.Prelude.{◌≡◌, ◌≤◌, length, map, ◌<◌, IsTrue, ◌↔◌, MatchOption, IfOk, IfErr, IsOk, []};
ghost use Rattle.dw_num.specs.Target.{byte_count, address_limit};
ghost use Rattle.dw_op.specs.{Expression.bare, Ranges.{InRange, AllInRange, FirstBadOperand}, Inner.Ranges.Fits};

use crate::op::{Op, are_typed};
use crate::operation::last_address;
use dw_num::{Size, Target};
use std::marker::Model;
use thiserror::Error;

/// Operations of a DWARF expression (2.5) or of a location description (2.6) for a target, which are in range for it: constants (`Op::Const`) and addresses
/// (`DW_OP_addr`) below 2^N, where an address has N bits (2.5.1.1); the sizes of `DW_OP_deref_size` from 1 to N/8 (2.5.1.3); branches (`DW_OP_bra`,
/// `DW_OP_skip`, 2.5.1.5) to an operation of the list or to its end. A block (7.7.1) of an `exprloc` spells such a list.
#[derive(Drop)]
pub struct OpList<'a> {
    pub(crate) target: Target,
    pub(crate) ops: Vec<Op<'a>>,
}

impl<'a> Model for OpList<'a> {
    ghost use Rattle.std.specs.Prelude.{map};
    ghost use Rattle.dw_op.specs.{Expression.{Expression, bare}, Ranges.AllInRange};

    ghost Value = { Expression };

    ghost view = { λ l. record { target = l.target; ops = map bare l.ops.items } };

    ghost invariant = { λ l. AllInRange l.target (map bare l.ops.items) };
}

/// The first operation of a list that is out of range.
#[derive(Clone, Copy, Debug, PartialEq, Eq, Error)]
#[error("BadOperand at operation {index}")]
pub struct BadOperand {
    /// Its index in the list, counted from 0.
    pub index: usize,
}

// Whether what the types leave open is in range.
fn fits(op: &Op<'_>, target: Target, len: usize) -> bool
    ensures { IsTrue result ↔ Fits target len op.now }
{
    match *op {
        Op::Addr(number) | Op::Const(number) => number <= last_address(target.size),
        Op::Bra(index) | Op::Skip(index) => index <= len,
        Op::DerefSize(bytes) => 1 <= bytes && bytes <= target.size.byte_count(),
        _ => true,
    }
}

#[tactic(auto, using(crate::proofs::Lent::Ranges::in_range, crate::proofs::Lent::Ranges::fits))]
fn is_in_range(op: &Op<'_>, target: Target, len: usize) -> bool
    ensures { IsTrue result ↔ InRange target len (bare op.now) }
{
    are_typed(op);
    fits(op, target, len)
}

impl<'a> OpList<'a> {
    /// A list of these operations (2.5.1, 2.6.1), or the first one that is out of range for the target. A list that is refused is dropped. Takes no memory.
    pub fn from_ops(ops: Vec<Op<'a>>, target: Target) -> Result<OpList<'a>, BadOperand>
        // What is answered is the list, and it is in range.
        ensures found { IfOk result (λ list.
            (list ≡ record { target = target; ops = map bare ops.entry.items }) × AllInRange target (map bare ops.entry.items)) }
        // A list in range is not refused.
        ensures only { AllInRange target (map bare ops.entry.items) → IsOk result }
        // A refusal names the first operation out of range.
        ensures first { IfErr result (λ error. FirstBadOperand target (map bare ops.entry.items) error.index) }
    {
        for (index, op) in ops.iter().enumerate() {
            if !is_in_range(op, target, ops.len()) {
                return Err(BadOperand { index });
            }
        }
        Ok(OpList { target, ops })
    }

    /// The target that the operations are for: the size of their addresses (`DW_OP_addr`, 2.5.1.1), and the order of their bytes.
    pub fn target(&self) -> Target
        ensures { result ≡ self.now.target }
    {
        self.target
    }

    /// How many operations (2.5.1, 2.6.1) there are.
    pub fn len(&self) -> usize
        ensures { result ≡ length self.now.ops }
    {
        self.ops.len()
    }

    /// Whether there is no operation (2.5.1, 2.6.1).
    pub fn is_empty(&self) -> bool
        ensures { IsTrue result ↔ self.now.ops ≡ [] }
    {
        self.ops.is_empty()
    }

    /// The operations (2.5.1, 2.6.1) in order, which are in range for the target.
    pub fn ops(&self) -> &[Op<'a>]
        ensures same { map bare result.now ≡ self.now.ops }
        ensures in_range { AllInRange self.now.target self.now.ops }
    {
        self.ops.as_slice()
    }
}
