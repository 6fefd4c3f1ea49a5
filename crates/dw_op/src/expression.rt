//! Expressions that are borrowed from a section.

ghost use Rattle.std.specs.Prelude.{◌≡◌, ℕ, List, [], ◌∷◌, IfOk, IfErr, MatchOption, MatchResult, OnOk, OnErr, IsTrue, ◌↔◌, length, take};
ghost use Rattle.std.specs.Iterator.{YieldsFirstBy, item_count};
ghost use Rattle.dw_op.specs.{Block.FrameBlock, Expression.bare, Faults.{BlockFault, IsWithin}, Least.LeastBlock, LeastBlock.IsAppended};
ghost use Rattle.dw_op.specs.{declared.op.Op.Op, declared.profile.Profile.TheVariants.Frame, Inner.Accepted.{IsAccepted, ops_of}};

use crate::block::{decode, judge};
use crate::equality::{feed_steps, same_steps};
use crate::least_block::{put_block, steps_len};
use crate::list::OpList;
use crate::op::Op;
use crate::profile::Profile;
use crate::walk::{Measure, Walker};
use dw_num::{ReadError, Refusal, Target, are_bytes};
use std::alloc::{AllocError, Global};
use std::hash::{Hash, Hasher};
use std::marker::Model;

/// A DWARF expression (2.5, 7.7.1): a block of the frame profile, borrowed, with its target. It stands for its operations. The operand of
/// `DW_CFA_def_cfa_expression` (6.4.2.2), `DW_CFA_expression` or `DW_CFA_val_expression` (6.4.2.3) is such a block behind its length (7.5.5).
#[derive(Debug, Drop)]
pub struct ExprRef<'a> {
    target: Target,
    bytes: &'a [u8],
}

impl<'a> Model for ExprRef<'a> {
    ghost use Rattle.dw_op.specs.Expression.{Expression};

    ghost Value = { Expression };

    ghost use Rattle.dw_num.specs.Input.{AreBytes};
    ghost use Rattle.dw_op.specs.Inner.Accepted.{IsAccepted, ops_of};

    ghost view = { λ e. record { target = e.target; ops = ops_of e.target e.bytes.now } };

    ghost invariant = { λ e. IsAccepted e.target e.bytes.now × AreBytes e.bytes.now };
}

/// An iterator over an expression's operations (2.5.1). A branch (`DW_OP_bra`, `DW_OP_skip`, 2.5.1.5) names the operation that it goes to. Takes no memory.
#[derive(Drop)]
pub struct OpSteps<'a> {
    walker: Walker<'a>,
}

impl<'a> Model for OpSteps<'a> {
    ghost use Rattle.std.specs.Prelude.{List};
    ghost use Rattle.dw_op.specs.declared.op.Op.{Op};

    ghost Value = { List Op };

    ghost use Rattle.dw_op.specs.Inner.Accepted.{StepsSo, left_of};

    ghost view = { λ s. left_of s.walker };

    ghost invariant = { λ s. StepsSo s.walker };
}

impl<'a> OpSteps<'a> {
    #[tactic(auto, using(crate::proofs::Judgement::steps_after, crate::proofs::Judgement::steps_answer))]
    pub(crate) fn step(&mut self) -> Option<Op<'a>>
        ensures { MatchOption result ((self.old ≡ []) × (self.new ≡ [])) (λ op. self.old ≡ bare op ∷ self.new) }
    {
        let Ok(next) = self.walker.next_op() else {
            unreachable!();
        };
        next
    }
}

impl<'a> Iterator for OpSteps<'a> {
    type Item = Op<'a>;

    ghost next_gives = { YieldsFirstBy bare (λ ops. ops) };

    ghost remaining = { item_count (λ ops. ops) };

    fn next(&mut self) -> Option<Op<'a>> {
        self.step()
    }
}

impl<'a> ExprRef<'a> {
    /// The expression (2.5) whose block (7.7.1) these bytes are for a target, or their first fault: one of `decode` in the frame
    /// profile (1, 8, 9, 20 to 23), at a place that counts from the block's first byte. Takes no memory.
    #[tactic(auto, using(crate::proofs::Lent::Blocks::fault_found))]
    pub fn accept(bytes: &'a [u8], target: Target) -> Result<ExprRef<'a>, Refusal>
        // What is answered stands for operations that have this block.
        ensures found { IfOk result (λ e. (e.target ≡ target) × FrameBlock target e.ops bytes.now) }
        // Operations that have this block are answered.
        ensures only { (ops : List Op) → FrameBlock target ops bytes.now → MatchResult result (λ e. e.ops ≡ ops) (λ _. ⊥) }
        // A refusal is the first fault.
        ensures first { IfErr result (BlockFault Frame target bytes.now) }
        // Its place is in the block or at its end.
        ensures within { IfErr result (IsWithin bytes.now) }
    {
        are_bytes(bytes);
        judge(bytes, target)?;
        Ok(ExprRef { target, bytes })
    }

    /// The target that the expression is for: the size of its addresses (`DW_OP_addr`, 2.5.1.1), and the order of its bytes.
    pub fn target(&self) -> Target
        ensures value { result ≡ self.now.target }
        ensures block { (bytes : List ℕ) × FrameBlock self.now.target self.now.ops bytes }
    {
        self.target
    }

    /// The same expression (2.5) once more.
    pub fn copied(&self) -> ExprRef<'a>
        ensures { result ≡ self.now }
    {
        ExprRef {
            target: self.target,
            bytes: self.bytes,
        }
    }

    /// A walk over the operations (2.5.1). Takes no memory.
    #[tactic(auto, using(crate::proofs::Judgement::accepted_read, crate::proofs::Judgement::steps_all))]
    pub fn steps(&self) -> OpSteps<'a>
        ensures { result ≡ self.now.ops }
    {
        let walker = Walker::new(self.bytes, self.target, Measure::Operations);
        OpSteps { walker }
    }

    /// The operations (2.5.1) as a list, or want of memory.
    #[tactic(auto, using(crate::proofs::Judgement::list_is))]
    pub fn ops(&self, alloc: Global) -> Result<OpList<'a>, AllocError>
        ensures { IfOk result (λ list. list ≡ self.now) }
    {
        match decode(alloc, self.bytes, self.target, Profile::Frame) {
            Ok(list) => Ok(list),
            Err(ReadError::OutOfMemory) => Err(AllocError),
            Err(ReadError::Refused(_)) => unreachable!(),
        }
    }

    /// Whether two expressions (2.5) have equal targets and equal lists of operations, which blocks of
    /// different bytes may have. Blocks of equal bytes are told without a walk. Takes no memory.
    pub fn is_same(&self, other: &ExprRef<'_>) -> bool
        ensures { IsTrue result ↔ self.now ≡ other.now }
    {
        self.target == other.target
            && (self.bytes == other.bytes || same_steps(self.steps(), other.steps()))
    }

    /// The length of the block of the operations' least spellings (7.7.1). Takes no memory.
    #[tactic(auto, using(crate::proofs::LeastSpellings::accepted_small))]
    pub fn least_len(&self) -> usize
        ensures { (least : List ℕ) × LeastBlock self.now.target self.now.ops least × (result ≡ length least) }
    {
        steps_len(self.steps(), self.target)
    }

    /// Appends the block of the operations' least spellings (7.7.1), or appends nothing where memory runs out. No other memory is taken.
    #[tactic(auto, using(crate::proofs::LeastSpellings::accepted_appended, crate::proofs::Lent::EncodeLaws::on_ok))]
    pub fn put_least(&self, out: &mut Vec<u8>) -> Result<(), AllocError>
        ensures ok { OnOk result (IsAppended (LeastBlock self.now.target self.now.ops) out.old.items out.new.items) }
        ensures err { OnErr result (out.new.items ≡ out.old.items) }
    {
        let start = out.len();
        let result = put_block(self.bytes, self.target, out);
        if result.is_err() {
            out.truncate(start);
        }
        result
    }
}

impl<'a> Clone for ExprRef<'a> {
    ghost use Rattle.std.specs.Prelude.{◌≡◌, ⊤};

    ghost is_clone = { λ expression copy. copy ≡ expression };

    ghost is_infallible = { λ _. ⊤ };

    fn clone(&self) -> Result<ExprRef<'a>, AllocError> {
        Ok(self.copied())
    }
}

impl<'a> PartialEq for ExprRef<'a> {
    ghost use Rattle.std.specs.Prelude.{◌≡◌, IsTrue, ◌↔◌};
    ghost use Rattle.dw_op.specs.Inner.{Equality.same_expression, EqualityLaws.same_laws};

    ghost eq = { same_expression };

    ghost laws = { same_laws };

    fn eq(&self, other: &ExprRef<'a>) -> bool
        ensures test { result ≡ same_expression self.now other.now }
        ensures equal { IsTrue result ↔ self.now ≡ other.now }
    {
        let _ = self.target();
        let _ = other.target();
        self.is_same(other)
    }
}

impl<'a> Eq for ExprRef<'a> {
    ghost use Rattle.dw_op.specs.Inner.EqualityLaws.{equal_laws};

    ghost laws = { equal_laws };
}

impl<'a> Hash for ExprRef<'a> {
    ghost use Rattle.dw_op.specs.Inner.{Equality.expression_fed, EqualityLaws.fed_alike};

    ghost hash_input = { expression_fed };

    ghost respects_eq = { fed_alike };

    fn hash<H: Hasher>(&self, state: &mut H) {
        (self.target.size.byte_count(), self.target.order as u8).hash(state);
        feed_steps(self.steps(), state);
    }
}
