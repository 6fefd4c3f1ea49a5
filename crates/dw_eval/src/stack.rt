//! The stack of values (2.5.1), and what operations do to it: stack operations (2.5.1.3), arithmetic and logic (2.5.1.4), comparisons and branches (2.5.1.5).

ghost use Rattle.std.specs.Prelude.{◌≡◌, ℕ, ◌%◌, pos, ◌+ℤ◌, List, [], ◌∷◌, length, slice_get, IfOk, IfErr, nat_eq, if◌then◌else◌};
ghost use Rattle.dw_eval.specs.Effect.{Next, Jump, on_top, on_two, on_three, known, nonzero, push, push_signed};
ghost use Rattle.dw_eval.specs.{declared.error.Kind.TheVariants.StackUnderflow, Inner.Steps.{Does, LacksTwo, divides}};

use crate::arithmetic;
use crate::error::Kind;
use dw_num::Size;
use std::alloc::Global;
use std::marker::Model;

/// Where an operation leads.
#[derive(Clone, Copy)]
pub(crate) enum Flow {
    /// To the next operation.
    Next,
    /// To the operation of this index.
    Jump(usize),
}

/// Why an operation leads nowhere.
#[derive(Clone, Copy)]
pub(crate) enum Stop {
    Fault(Kind),
    Device,
    OutOfMemory,
}

pub(crate) type Answer = Result<Flow, Stop>;

/// A stack of values. A contract sees the top first.
#[derive(Drop)]
pub(crate) struct Stack {
    values: Vec<u64>,
}

impl Model for Stack {
    ghost use Rattle.std.specs.Prelude.{List, ℕ, reverse};

    ghost Value = { List ℕ };

    ghost view = { λ s. reverse s.values.items };
}

impl Stack {
    pub(crate) fn new(alloc: Global) -> Stack
        ensures { result ≡ [] }
    {
        Stack {
            values: Vec::new(alloc),
        }
    }

    pub(crate) fn len(&self) -> usize
        ensures { result ≡ length self.now }
    {
        self.values.len()
    }

    pub(crate) fn clear(&mut self)
        ensures { self.new ≡ [] }
    {
        self.values.clear();
    }

    /// The entry at an index, the top being 0.
    pub(crate) fn get(&self, index: usize) -> Option<u64>
        ensures { result ≡ slice_get self.now index }
    {
        let len = self.values.len();
        if index < len {
            Some(self.values[len - 1 - index])
        } else {
            None
        }
    }

    /// Puts a value on the top, and goes on to the next operation.
    pub(crate) fn put(&mut self, value: u64) -> Answer
        ensures { Does (Next (value ∷ self.old)) result self.new }
    {
        self.values.push(value).map_err(|_| Stop::OutOfMemory)?;
        Ok(Flow::Next)
    }

    /// Takes the top, of which there has to be one.
    pub(crate) fn take(&mut self) -> Result<u64, Stop>
        ensures found { IfOk result (λ t. self.old ≡ t ∷ self.new) }
        ensures short { IfErr result (λ e. (e ≡ Stop.Fault StackUnderflow) × (self.old ≡ [])) }
    {
        self.values.pop().ok_or(Stop::Fault(Kind::StackUnderflow))
    }

    /// Takes the second and the top, in this order, of which there have to be two.
    pub(crate) fn take_two(&mut self) -> Result<(u64, u64), Stop>
        ensures found { IfOk result (λ p. self.old ≡ p.1 ∷ p.0 ∷ self.new) }
        ensures short { IfErr result (λ e. (e ≡ Stop.Fault StackUnderflow) × LacksTwo self.old) }
    {
        let top = self.take()?;
        let second = self.take()?;
        Ok((second, top))
    }

    pub(crate) fn pick(&mut self, index: u8) -> Answer
        ensures { Does (known StackUnderflow (slice_get self.old index) (λ v. Next (v ∷ self.old))) result self.new }
    {
        let value = self.get(usize::from(index));
        self.put(value.ok_or(Stop::Fault(Kind::StackUnderflow))?)
    }

    pub(crate) fn swap(&mut self) -> Answer
        ensures { Does (on_two self.old (λ s t below. Next (s ∷ t ∷ below))) result self.new }
    {
        let (s, t) = self.take_two()?;
        self.put(t)?;
        self.put(s)
    }

    pub(crate) fn rot(&mut self) -> Answer
        ensures { Does (on_three self.old (λ third s t below. Next (s ∷ third ∷ t ∷ below))) result self.new }
    {
        let (s, t) = self.take_two()?;
        let third = self.take()?;
        self.put(t)?;
        self.put(third)?;
        self.put(s)
    }

    pub(crate) fn div(&mut self, size: Size) -> Answer
        ensures { Does (divides size self.old) result self.new }
    {
        let (s, t) = self.take_two()?;
        if arithmetic::reduced(t, size) == 0 {
            return Err(Stop::Fault(Kind::DivideByZero));
        }
        self.put(arithmetic::quotient(s, t, size))
    }

    pub(crate) fn modulus(&mut self, size: Size) -> Answer
        ensures { Does (on_two self.old (λ s t below. nonzero t (push size (s % t) below))) result self.new }
    {
        let (s, t) = self.take_two()?;
        if t == 0 {
            return Err(Stop::Fault(Kind::DivideByZero));
        }
        self.put(arithmetic::reduced(s % t, size))
    }

    pub(crate) fn bra(&mut self, target: usize) -> Answer
        ensures { Does (on_top self.old (λ t below. if nat_eq t 0 then Next below else Jump target below)) result self.new }
    {
        let t = self.take()?;
        if t != 0 {
            return Ok(Flow::Jump(target));
        }
        Ok(Flow::Next)
    }

    /// Puts the sum of a base and a signed number on the stack, or faults where there is no base.
    pub(crate) fn put_sum(&mut self, base: Option<u64>, by: i64, size: Size, absent: Kind) -> Answer
        ensures { Does (known absent base (λ v. push_signed size (pos v +ℤ by) self.old)) result self.new }
    {
        let value = base.ok_or(Stop::Fault(absent))?;
        self.put(arithmetic::offset_by(value, by, size))
    }
}
