//! Location descriptions (2.6).

ghost use Rattle.std.specs.Prelude.{◌≡◌, ◌⊎◌, ℕ, ◌-◌, ◌^◌, ◌<◌, ◌≤◌, IsTrue, false, length, map, option_map, Ok, Err, [], Option, None};
ghost use Rattle.dw_num.specs.Target.{byte_count};
ghost use Rattle.dw_op.specs.{Expression.bare, Ranges.AllInRange, declared.op.Op.TheVariants.DerefSize};
ghost use Rattle.dw_eval.specs.{Context.context, Effect.effect, Location.{bare_place, bare_result, place_here, with_piece, with_place}};
ghost use Rattle.dw_eval.specs.Location.{held_step, refused, LocatedIn, PlaceMayFailIn};
ghost use Rattle.dw_eval.specs.declared.error.{EvalError.TheVariants.{Fault, OutOfMemory}, Kind.Kind, Kind.TheVariants.{Device, MissingPiece}};
ghost use Rattle.dw_eval.specs.Inner.{Description.{state_of, EndsBehind, Finishes, Leaves, LeavesOver}, Location.LocatesOver, Steps.refusal};

use crate::action::{act, calculate};
use crate::env::Env;
use crate::error::{EvalError, Kind};
use crate::evaluation::reached;
use crate::memory::Memory;
use crate::place::{Part, Piece, Place};
use crate::stack::{Answer, Flow, Stack, Stop};
use dw_op::{Op, OpList};
use std::alloc::Global;

// Why an operation is refused that answers so on the stack: too few entries, or the missing piece.
fn refusal(answer: Answer, index: usize) -> EvalError
    ensures { result ≡ refusal index answer }
{
    match answer {
        Err(Stop::Fault(Kind::StackUnderflow)) => Kind::StackUnderflow.at(index),
        Err(Stop::OutOfMemory) => EvalError::OutOfMemory,
        _ => Kind::MissingPiece.at(index),
    }
}

/// A description on the way: the stack, the place that waits for its piece, and the pieces so far.
#[derive(Drop)]
pub(crate) struct Description<'a> {
    pub(crate) stack: Stack,
    pub(crate) pending: Option<Place<'a>>,
    pub(crate) pieces: Vec<Piece<'a>>,
}

impl<'a> Description<'a> {
    /// Nothing is described yet. Takes no memory.
    pub(crate) fn new(alloc: Global) -> Description<'a>
        ensures { (result.stack ≡ []) × (result.pending ≡ None) × (result.pieces.items ≡ []) }
    {
        Description {
            stack: Stack::new(alloc),
            pending: None,
            pieces: Vec::new(alloc),
        }
    }

    // The pending place, else memory at the top, else nothing.
    fn place(&self) -> Place<'a>
        ensures { bare_place result ≡ place_here (option_map bare_place self.now.pending) self.now.stack }
    {
        match self.pending {
            Some(place) => place,
            None => match self.stack.get(0) {
                Some(address) => Place::Memory(address),
                None => Place::Empty,
            },
        }
    }

    // Adds a piece, and empties the stack.
    fn add(&mut self, part: Part, index: usize) -> Result<usize, EvalError>
        requires { index < 2 ^ 64 - 1 }
        ensures { Leaves (Ok (with_piece part (state_of index self.old))) index self.new result }
    {
        let place = self.place();
        self.pieces
            .push(Piece { place, part })
            .map_err(|_| EvalError::OutOfMemory)?;
        self.stack.clear();
        self.pending = None;
        Ok(index + 1)
    }

    fn set(&mut self, place: Place<'a>, index: usize) -> Result<usize, EvalError>
        requires { index < 2 ^ 64 - 1 }
        ensures { Leaves (Ok (with_place (bare_place place.entry) self.old.stack (state_of index self.old))) index self.new result }
    {
        self.pending = Some(place);
        Ok(index + 1)
    }

    // No piece follows a place: the stack is too short for the operation, or the piece is missing.
    #[tactic(auto, using(crate::proofs::PlaceSteps::read_refusal))]
    fn refuse(&mut self, op: &Op<'a>, index: usize, env: &Env<'_>) -> Result<usize, EvalError>
        ensures { (byte : ℕ → Option ℕ) → Leaves (refused (effect (context env.now byte) (bare op.now) self.old.stack)) index self.new result }
    {
        if let Op::Deref | Op::DerefSize(_) = *op {
            return Err(refusal(self.stack.take().and(Ok(Flow::Next)), index));
        }
        Err(refusal(calculate(op, &mut self.stack, env), index))
    }

    // An operation while a place is pending.
    #[tactic(auto, using(crate::proofs::PlaceSteps::held_else))]
    fn hold(&mut self, op: &Op<'a>, index: usize, env: &Env<'_>) -> Result<usize, EvalError>
        requires { index < 2 ^ 64 - 1 }
        ensures { (byte : ℕ → Option ℕ) → Leaves (held_step (context env.now byte) (bare op.now) (state_of index self.old)) index self.new result }
    {
        match *op {
            Op::Piece(size) => self.add(Part::Bytes(size), index),
            Op::BitPiece(size, offset) => self.add(Part::Bits { size, offset }, index),
            Op::Nop => Ok(index + 1),
            _ => self.refuse(op, index, env),
        }
    }

    /// Executes the operation at an index, and says which one is next.
    #[tactic(auto, using(crate::proofs::PlaceSteps::held_so, crate::proofs::PlaceSteps::free_so))]
    pub(crate) fn step<M: Memory>(
        &mut self,
        op: &Op<'a>,
        index: usize,
        env: &Env<'_>,
        memory: &mut M,
    ) -> Result<usize, EvalError>
        requires inside { index < 2 ^ 64 - 1 }
        requires access { (len : ℕ) → op.now ≡ DerefSize len → (1 ≤ len) × (len ≤ byte_count env.now.target.size) }
        requires room { M.failures memory.old < 2 ^ 64 - 1 }
        ensures same { M.byte memory.new ≡ M.byte memory.old }
        ensures so { LeavesOver (context env.now (M.byte memory.old)) (bare op.now) index
            self.old (M.failures memory.old) self.new result (M.failures memory.new) }
    {
        match self.pending {
            Some(_) => self.hold(op, index, env),
            None => match *op {
                Op::Reg(register) => self.set(Place::Register(register), index),
                Op::Implicit(bytes) => self.set(Place::Bytes(bytes), index),
                Op::StackValue => match self.stack.take() {
                    Ok(value) => self.set(Place::Value(value), index),
                    Err(_) => Err(Kind::StackUnderflow.at(index)),
                },
                Op::Piece(size) => self.add(Part::Bytes(size), index),
                Op::BitPiece(size, offset) => self.add(Part::Bits { size, offset }, index),
                _ => reached(act(op, &mut self.stack, env, memory), index),
            },
        }
    }

    // Whether a pending place or an entry of the stack is left.
    fn leaves_some(&self) -> bool
        ensures some { IsTrue result → EndsBehind self.now (λ len pieces. Err (Fault MissingPiece len)) }
        ensures none { result ≡ false → EndsBehind self.now (λ len pieces. Ok pieces) }
    {
        self.pending.is_some() || self.stack.len() > 0
    }

    /// The pieces at the end of a list of this length: one whole piece where there is none yet, and nothing may be left behind pieces.
    pub(crate) fn finish(mut self, len: usize) -> Result<Vec<Piece<'a>>, EvalError>
        ensures { Finishes len self.entry result }
    {
        if self.pieces.is_empty() {
            let whole = Piece {
                place: self.place(),
                part: Part::Whole,
            };
            self.pieces.push(whole).map_err(|_| EvalError::OutOfMemory)?;
            return Ok(self.pieces);
        }
        if self.leaves_some() {
            return Err(Kind::MissingPiece.at(len));
        }
        Ok(self.pieces)
    }
}

fn run<'a, M: Memory>(
    alloc: Global,
    ops: &[Op<'a>],
    env: &Env<'_>,
    memory: &mut M,
    steps: u64,
) -> Result<Vec<Piece<'a>>, EvalError>
    requires range { AllInRange env.now.target (map bare ops.now) }
    requires room { M.failures memory.old < 2 ^ 64 - 1 }
    ensures same { M.byte memory.new ≡ M.byte memory.old }
    ensures so { LocatesOver (map bare ops.now) (context env.now (M.byte memory.old)) steps
        (M.failures memory.old) (bare_result result) (M.failures memory.new) }
{
    let mut description = Description::new(alloc);
    let mut index = 0;
    let mut taken = 0;
    'steps: while index < ops.len() {
        if taken >= steps {
            return Err(Kind::StepLimit.at(index));
        }
        index = description.step(&ops[index], index, env, memory)?;
        taken += 1;
    }
    description.finish(ops.len())
}

/// The pieces that a location description describes (2.6), in order: at least one, which is `Part::Whole` where no piece or bit_piece is executed. The
/// addresses and values of places are below 2^N, where an address has N bits. The stack begins empty; the list's target has to be that of the environment.
/// `steps` is the most operations that are executed, as in `evaluate`. Takes memory for the stack and the list (`OutOfMemory`).
///
/// While a place waits for its piece, an operation other than piece, bit_piece and nop is `StackUnderflow`, where the stack has too few entries for it, or
/// else `MissingPiece`; behind pieces nothing may be left at the end, else `MissingPiece` there. The other faults are those of `evaluate`, but `EmptyResult`
/// and `NotAValue` do not come.
pub fn locate<'a, M: Memory>(
    alloc: Global,
    list: &OpList<'a>,
    env: &Env<'_>,
    memory: &mut M,
    steps: u64,
) -> Result<Vec<Piece<'a>>, EvalError>
    requires target { list.now.target ≡ env.now.target }
    requires room { M.failures memory.old < 2 ^ 64 - 1 }
    // No byte of the memory changes.
    ensures same { M.byte memory.new ≡ M.byte memory.old }
    // The count of failures stays or grows.
    ensures counted { M.failures memory.old ≤ M.failures memory.new }
    // Where it stays, the answer is the description's, or want of memory.
    ensures answered { M.failures memory.new ≡ M.failures memory.old →
        (result ≡ Err OutOfMemory) ⊎ LocatedIn list.now.ops env.now (M.byte memory.old) steps (bare_result result) }
    // Where it grows, a read of an operation that is reached has failed.
    ensures failed { M.failures memory.old < M.failures memory.new →
        (i : ℕ) × (result ≡ Err (Fault Device i)) × PlaceMayFailIn list.now.ops env.now (M.byte memory.old) steps i }
    // A fault's index is that of an operation, or the list's length.
    ensures within { (kind : Kind) (i : ℕ) → result ≡ Err (Fault kind i) → i ≤ length list.now.ops }
    // No other failure is named.
    ensures device { (i : ℕ) → result ≡ Err (Fault Device i) → M.failures memory.old < M.failures memory.new }
{
    run(alloc, list.ops(), env, memory, steps)
}
