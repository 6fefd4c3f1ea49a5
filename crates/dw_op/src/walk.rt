//! The operations of a block one after another, without memory, with marks that a search for one of them begins at.

ghost use Rattle.std.specs.Prelude.{◌≡◌, ◌≤◌, ◌<◌, ◌-◌, ◌^◌, None, Some, IfSome, length, slice_get};
ghost use Rattle.dw_num.specs.Input.{AreBytes, behind};
ghost use Rattle.dw_op.specs.{Expression.bare, declared.profile.Profile.TheVariants.Location, Inner.FrontOp.bare_step, Inner.Sums.{weight, sum_in}};
ghost use Rattle.dw_op.specs.Inner.Walk.{walk, end_of, goes_to, find_at, branch_to, block_input};
ghost use Rattle.dw_op.specs.Inner.Windows.{AreMarks, Shifted, block_of, WalkSo, SoughtSo, Stays, Walks};

use crate::least::op_least_len;
use crate::op::Op;
use crate::operation::{Branch, Step, next_step, refused};
use crate::profile::Profile;
use arrayvec::ArrayVec;
use dw_num::{Code, Cursor, Refusal, Target, are_bytes};

pub(crate) const APART: u64 = 512;

pub(crate) const ROOM: u64 = 192;

/// An operation, by how many bytes are before it, and by what the operations there add.
#[derive(Clone, Copy, Default)]
pub(crate) struct Mark {
    pub(crate) bytes: u32,
    pub(crate) count: u32,
}

/// Up to 192 marks, which are kept in place.
pub(crate) type Marks = ArrayVec<Mark, 192>;

// How far back a branch leads.
const REACH: u64 = 32768;

/// What a walk adds up of the operations that it passes.
#[derive(Clone, Copy)]
pub(crate) enum Measure {
    /// One for each.
    Operations,
    /// The bytes of their least spellings.
    LeastBytes,
}

// What an operation adds. The least spelling of a branch, wherever it goes, is a code and two bytes.
#[inline(always)]
fn added(measure: Measure, step: Step<'_>, target: Target) -> usize
    ensures { result ≡ weight measure target (bare_step step.entry) }
{
    match measure {
        Measure::Operations => 1,
        Measure::LeastBytes => match step {
            Step::Plain(op) => op_least_len(&op, target),
            Step::Jump(_, _) => 3,
        },
    }
}

// A branch to this operation.
fn named<'a>(branch: Branch, index: usize) -> Op<'a>
    ensures { branch_to branch (Some index) ≡ Some (bare result) }
{
    match branch {
        Branch::Bra => Op::Bra(index),
        Branch::Skip => Op::Skip(index),
    }
}

/// A walk over a block that can be read, of either profile: what is left, the sum of the operations that were passed, and a
/// window that begins at an operation not behind the first that a branch can still go back to, with marks for the goals below a limit.
#[derive(Drop)]
pub(crate) struct Walker<'a> {
    pub(crate) measure: Measure,
    pub(crate) bytes: &'a [u8],
    pub(crate) here: Cursor<'a>,
    pub(crate) count: usize,
    pub(crate) window: Cursor<'a>,
    pub(crate) window_count: usize,
    pub(crate) marks: Marks,
    pub(crate) limit: u64,
}

fn copied<'a>(cursor: &Cursor<'a>) -> Cursor<'a>
    ensures { result ≡ cursor.now }
{
    Cursor::new(cursor.rest(), cursor.at(), cursor.target())
}

/// Goes on to the first operation that does not begin below the place, and says what those add that it passes.
#[tactic(auto, using(crate::proofs::WalkStarts::never_stuck, crate::proofs::Splits::step_shorter))]
fn advance(window: &mut Cursor<'_>, measure: Measure, low: u64) -> usize
    requires bytes { AreBytes window.old.bytes }
    requires read { (walk Location window.old).fault ≡ None }
    requires low { low ≤ end_of window.old }
    ensures shifted { Shifted measure window.old low result window.new }
    ensures beyond { low ≤ window.new.at }
{
    let target = window.target();
    let mut count = 0;
    'ops: while window.at() < low {
        match next_step(window, Profile::Location) {
            Ok(step) => count += added(measure, step, target),
            Err(_) => return count,
        }
    }
    count
}

/// What the operations from the cursor on add before the one that begins at the place, or before the end.
#[tactic(auto, using(crate::proofs::WalkStarts::count_behind))]
fn sum_from(cursor: &Cursor<'_>, measure: Measure, place: u64) -> Option<usize>
    requires bytes { AreBytes cursor.now.bytes }
    requires read { (walk Location cursor.now).fault ≡ None }
    ensures exact { result ≡ sum_in measure Location cursor.now place }
    ensures few { IfSome result (λ i. i ≤ length cursor.now.bytes) }
{
    if place > cursor.at() + cursor.left() as u64 {
        return None;
    }
    let mut here = copied(cursor);
    let count = advance(&mut here, measure, place);
    (here.at() == place).then_some(count)
}

fn mark_at(marks: &Marks, k: usize) -> Mark
    requires { k < length marks.now.items }
    ensures { slice_get marks.now.items k ≡ Some result }
{
    marks.as_slice()[k]
}

/// Marks what a cursor has left, as far as there is room.
#[tactic(auto, using(crate::proofs::Marked::fill_none))]
fn fill(window: &Cursor<'_>, measure: Measure, marks: &mut Marks)
    requires bytes { AreBytes window.now.bytes }
    requires read { (walk Location window.now).fault ≡ None }
    ensures { AreMarks measure window.now marks.new.items }
{
    marks.clear();
    let left = window.left();
    let end = window.at() + left as u64;
    let mut cursor = copied(window);
    let mut count = 0;
    let mut low = window.at() + APART;
    'marks: while marks.len() < 192 {
        if end < low {
            return;
        }
        count += advance(&mut cursor, measure, low);
        // Operations that are four gigabytes away have no marks.
        match (u32::try_from(left - cursor.left()), u32::try_from(count)) {
            (Ok(bytes), Ok(count)) => marks.push(Mark { bytes, count }),
            _ => return,
        }
        low += APART;
    }
}

/// A cursor behind so many bytes of another.
fn cursor_behind<'a>(window: &Cursor<'a>, bytes: usize) -> Cursor<'a>
    requires { bytes ≤ length window.now.bytes }
    ensures { result ≡ behind bytes window.now }
{
    let (_, rest) = window.rest().split_at(bytes);
    Cursor::new(rest, window.at() + bytes as u64, window.target())
}

/// What the operations from the cursor on add before the one that begins at the place, or before the end.
fn sum_by(window: &Cursor<'_>, measure: Measure, marks: &Marks, place: u64) -> Option<usize>
    requires bytes { AreBytes window.now.bytes }
    requires read { (walk Location window.now).fault ≡ None }
    requires marks { AreMarks measure window.now marks.now.items }
    ensures exact { result ≡ sum_in measure Location window.now place }
    ensures few { IfSome result (λ i. i ≤ length window.now.bytes) }
{
    let far = place.saturating_sub(window.at()) / APART;
    let k = marks.len().min(far as usize);
    if k == 0 {
        return sum_from(window, measure, place);
    }
    let mark = mark_at(marks, k - 1);
    let more = sum_from(&cursor_behind(window, mark.bytes as usize), measure, place)?;
    Some(mark.count as usize + more)
}

impl<'a> Walker<'a> {
    /// At the front of a block that can be read.
    pub(crate) fn new(bytes: &'a [u8], target: Target, measure: Measure) -> Walker<'a>
        requires { (walk Location (block_input target bytes.now)).fault ≡ None }
        ensures so { WalkSo result }
        ensures here { result.here ≡ block_input target bytes.entry.now }
        ensures count { result.count ≡ 0 }
        ensures bytes { result.bytes.now ≡ bytes.entry.now }
        ensures measure { result.measure ≡ measure }
    {
        are_bytes(bytes);
        Walker {
            measure,
            bytes,
            here: Cursor::new(bytes, 0, target),
            count: 0,
            window: Cursor::new(bytes, 0, target),
            window_count: 0,
            marks: ArrayVec::new(),
            limit: APART,
        }
    }

    // Moves the window on, for a branch that ends here and goes behind all that is marked.
    fn reach(&mut self, end: u64, place: u64)
        requires { SoughtSo end self.old }
        ensures so { SoughtSo end self.new }
        ensures stays { Stays self.old self.new }
    {
        if place < self.limit {
            return;
        }
        let low = end.saturating_sub(REACH);
        self.window_count += advance(&mut self.window, self.measure, low);
        fill(&self.window, self.measure, &mut self.marks);
        self.limit = self.window.at() + APART * (ROOM + 1);
    }

    // What stands before the operation that a branch names that ends here.
    #[inline(never)]
    fn sought(&mut self, end: u64, number: u16) -> Option<usize>
        requires { SoughtSo end self.old }
        ensures exact { result ≡ find_at (sum_in self.old.measure Location (block_of self.old)) (goes_to end number) }
        ensures so { SoughtSo end self.new }
        ensures stays { Stays self.old self.new }
    {
        // DWARF 5, 2.5.1.5: the number is signed.
        let place = end.checked_add_signed(i64::from(number.cast_signed()))?;
        if end <= place && place - end < APART {
            let more = sum_from(&self.here, self.measure, place)?;
            return Some(self.count + more);
        }
        self.reach(end, place);
        let more = sum_by(&self.window, self.measure, &self.marks, place)?;
        Some(self.window_count + more)
    }

    /// The next operation, or the refusal of a branch that leads nowhere. A branch has what stands before the operation that it names.
    #[inline(always)]
    #[tactic(auto, using(crate::proofs::Walkers::walked_plain, crate::proofs::Walkers::room_on, crate::proofs::WalkStarts::never_stuck))]
    pub(crate) fn next_op(&mut self) -> Result<Option<Op<'a>>, Refusal>
        requires { WalkSo self.old }
        ensures { Walks self.old self.new result }
    {
        if self.here.left() == 0 {
            return Ok(None);
        }
        let at = self.here.at();
        let target = self.here.target();
        let step = next_step(&mut self.here, Profile::Location)?;
        self.count += added(self.measure, step, target);
        match step {
            Step::Plain(op) => Ok(Some(op)),
            Step::Jump(branch, number) => match self.sought(at + 3, number) {
                Some(before) => Ok(Some(named(branch, before))),
                None => refused(Code::BadBranch, at),
            },
        }
    }
}
