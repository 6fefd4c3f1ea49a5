//! The walks that run the programs of FDEs: one that goes from CIE to CIE, and those of other CIEs with long programs.

ghost use Rattle.std.specs.Prelude.{◌≡◌, List, Some};
ghost use Rattle.dw_num.specs.declared.target.Target.{Target as TheTarget};
ghost use Rattle.dw_row.specs.Rows.{blank};
ghost use Rattle.dw_cfa.specs.{RowSteps.stepping, Runs.finished};
ghost use Rattle.dw_section.specs.{Among.IsAmong, Headers.Head, Inner.{PieceHeader.initial_in, Walks.{AreAway, AreLed, LedTo}}};

use crate::header::Initial;
use dw_cfa::RowWalk;
use dw_num::{Target, are_bytes};
use std::alloc::Global;
use std::collections::BTreeMap;
use std::mem;

// The walk of a CIE whose program has more bytes is put away. A walk takes some kilobytes, and a shorter program is soon run once more.
const LONG: usize = 256;

/// A walk that goes from FDE to FDE, and those that were put away.
#[derive(Drop)]
pub(crate) struct Walks<'a> {
    pub(crate) walk: RowWalk<'a>,
    /// The CIE whose program the walk was led to, by its place.
    pub(crate) cie_at: Option<u64>,
    /// The program of that CIE is long.
    pub(crate) long: bool,
    // The walks of other CIEs with long programs, by the CIEs' places.
    away: BTreeMap<u64, RowWalk<'a>>,
    alloc: Global,
}

// Puts a walk away under the place of its CIE. Where there is no memory for it, it is dropped.
fn put_away<'a>(away: &mut BTreeMap<u64, RowWalk<'a>>, place: u64, walk: RowWalk<'a>)
    ensures { (target : TheTarget) (hs : List Head) → LedTo target hs (Some place) walk.entry.led → AreAway target hs away.old → AreAway target hs away.new }
{
    drop(away.insert(place, walk));
}

// Takes the walk of the CIE at a place back out, if there is one, with its place.
fn take_back<'a>(
    away: &mut BTreeMap<u64, RowWalk<'a>>,
    place: u64,
    alloc: Global,
    target: Target,
) -> (RowWalk<'a>, Option<u64>)
    ensures led { (hs : List Head) → AreAway target hs away.old → LedTo target hs result.1 result.0.led }
    ensures away { (hs : List Head) → AreAway target hs away.old → AreAway target hs away.new }
{
    match away.remove(&place) {
        Some(walk) => (walk, Some(place)),
        None => (RowWalk::new(alloc, target), None),
    }
}

impl<'a> Walks<'a> {
    /// No walk was led to a CIE. Takes no memory.
    pub(crate) fn new(alloc: Global, target: Target) -> Walks<'a>
        ensures led { (hs : List Head) → AreLed target hs result }
        ensures steps { result.walk.steps ≡ stepping blank finished }
    {
        Walks {
            walk: RowWalk::new(alloc, target),
            cie_at: None,
            long: false,
            away: BTreeMap::new(alloc),
            alloc,
        }
    }

    // Leaves the CIE at a place for another one. Out of line: room for walks is cleared at each call.
    #[inline(never)]
    fn change(&mut self, left: u64, place: u64, target: Target)
        requires { self.old.cie_at ≡ Some left }
        ensures { (hs : List Head) → AreLed target hs self.old → AreLed target hs self.new }
    {
        let (other, cie_at) = take_back(&mut self.away, place, self.alloc, target);
        let before = mem::replace(&mut self.walk, other);
        if self.long {
            put_away(&mut self.away, left, before);
        } else {
            drop(before);
        }
        self.cie_at = cie_at;
    }

    /// Leads a walk to a CIE. No bytes are compared where it was led to that one before.
    #[inline(always)]
    pub(crate) fn lead(&mut self, cie: &Initial<'a>, target: Target)
        ensures led { (hs : List Head) → IsAmong (initial_in cie.now) hs → AreLed target hs self.old → AreLed target hs self.new }
        ensures at { self.new.cie_at ≡ Some cie.now.at }
    {
        let long = cie.program.bytes.len() > LONG;
        if (self.long || long)
            && let Some(left) = self.cie_at
            && left != cie.at
        {
            self.change(left, cie.at, target);
        }
        self.long = long;
        if self.cie_at == Some(cie.at) {
            return;
        }
        are_bytes(cie.program.bytes);
        self.walk.lead(cie.program, cie.factors, target);
        self.cie_at = Some(cie.at);
    }
}
