//! The FDEs of a table, read again at their places, and how many rows their programs start (6.4.3).

ghost use Rattle.std.specs.Prelude.{◌≡◌, ◌≤◌, ℕ, List, length, ◌<◌, slice_index_or};
ghost use Rattle.dw_section.specs.{Headers.{Head, Headers}, Meaning.{AreFdes, RowStarts}, Ranges.{IsRanged, fde_in}, declared.lookup.Fde.{Fde as TheFde}};
ghost use Rattle.dw_section.specs.Inner.{Counted.{IsProgram, StartsOf}, Index.IsFound, Initials.AreOf, Lookup.{fde_of, IsFoundIn}};

use crate::header::{FdeEntry, Initial, read_behind};
use crate::lookup::FdeRef;
use crate::standing_fde::{piece_at, pointer_of};
use crate::table::Table;
use dw_cfa::{Instr, Instructions};
use dw_index::Ranged;
use dw_num::Target;

/// A nonempty FDE, and the CIE that it names.
#[derive(Clone, Copy)]
pub(crate) struct FoundFde<'a> {
    pub(crate) own: FdeEntry<'a>,
    pub(crate) cie: Initial<'a>,
}

/// The FDE of an entry of the list, read again at its place.
#[inline(always)]
pub(crate) fn found_fde<'a>(
    bytes: &'a [u8],
    target: Target,
    initials: &[Initial<'a>],
    fde: &Ranged,
) -> FoundFde<'a>
    requires headers { (hs : List Head) × Headers target bytes.now hs × AreOf hs initials.now × IsRanged hs fde.now }
    ensures at { result.own.at ≡ fde.now.at }
    ensures begin { result.own.begin ≡ fde.now.begin }
    ensures range { result.own.range ≡ fde.now.range }
    ensures is { (hs : List Head) → Headers target bytes.now hs → AreOf hs initials.now → IsRanged hs fde.now → IsFound hs result }
{
    let at = u64::from(fde.at);
    let Ok(piece) = piece_at(bytes, at, target) else {
        unreachable!();
    };
    let Some(own) = piece else {
        unreachable!();
    };
    let (pointer, mut cursor) = pointer_of(&own, target);
    let Ok(header) = read_behind(&own, pointer, &mut cursor, target) else {
        unreachable!();
    };
    let named = initials.partition_point(|initial| initial.at < pointer);
    FoundFde {
        own: header,
        cie: initials[named],
    }
}

// How many rows an FDE's program starts.
#[tactic(auto, using(crate::proofs::Counts::starts_so, crate::proofs::Counts::answers_few))]
fn starts_of(fde: &FoundFde<'_>, target: Target) -> u64
    requires { IsProgram target fde.now }
    ensures bound { result ≤ 2147483648 }
    ensures counted { StartsOf target fde.now result }
{
    let mut instrs = Instructions::new(fde.own.program, fde.cie.factors, target);
    let mut starts: u64 = 1;
    'instrs: while let Some(answer) = instrs.next() {
        if matches!(answer, Ok(Instr::SetLoc(_) | Instr::Advance(_))) {
            starts += 1;
        }
    }
    starts
}

impl<'a> Table<'a> {
    #[inline(always)]
    pub(crate) fn listed(&self, fde: FdeRef) -> Ranged
        requires { (fs : List TheFde) → AreFdes self.now.target self.now.bytes fs → fde.place < length fs }
        ensures ranged { (hs : List Head) → Headers self.now.target self.now.bytes hs → IsRanged hs result }
        ensures some { 0 < result.range }
        ensures is { (fs : List TheFde) → AreFdes self.now.target self.now.bytes fs → (d : TheFde) → fde_in result ≡ slice_index_or fs fde.place d }
    {
        self.index()[fde.place]
    }

    /// A nonempty FDE, with its program and what its CIE says.
    #[inline(always)]
    pub(crate) fn found(&self, fde: FdeRef) -> FoundFde<'a>
        requires { (fs : List TheFde) → AreFdes self.now.target self.now.bytes fs → fde.place < length fs }
        ensures found { IsFoundIn self.now.target self.now.bytes result }
        ensures listed { (fs : List TheFde) → AreFdes self.now.target self.now.bytes fs → (d : TheFde) → fde_of result ≡ slice_index_or fs fde.place d }
    {
        found_fde(self.bytes, self.target, &self.initials, &self.listed(fde))
    }

    /// How many rows the programs of all nonempty FDEs start, one each and one for each instruction that moves the location. Takes no memory.
    pub fn row_starts(&self) -> u64
        ensures { RowStarts self.now.target self.now.bytes result }
    {
        let mut sum = 0;
        let index = self.index();
        for fde in index {
            let found = found_fde(self.bytes, self.target, &self.initials, fde);
            sum += starts_of(&found, self.target);
        }
        sum
    }
}
