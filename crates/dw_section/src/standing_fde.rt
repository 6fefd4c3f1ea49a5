//! FDEs that are read at their places in bytes that were not checked (6.4.1).

ghost use Rattle.std.specs.{Bool.MatchBool, Prelude.{◌≡◌, ◌+◌, ◌^◌, ◌<◌, ◌≤◌, ℕ, List, length, map, slice_index_or, Some, None, IfOk, IfErr, IfSome, IsSome}};
ghost use Rattle.std.specs.Prelude.{MatchOption, MatchResult, OnOk};
ghost use Rattle.dw_num.specs.declared.refusal.Refusal.{Refusal as TheRefusal};
ghost use Rattle.dw_op.specs.Faults.{IsWithin};
ghost use Rattle.dw_section.specs.{Among.IsAmong, Cut.{Piece, id_width}, Fits.RowFits, Headers.{FdeHead, Has, fde}, Meaning.{AreFdes, Covers, NoneCovers}};
ghost use Rattle.dw_section.specs.{Meaning.RulesAt, Overlap.Ascends, Ranges.{IsTable, LeadsTo, Ranged as TheRanged, Uncovered, fde_in, range_in}, Stage.Then};
ghost use Rattle.dw_section.specs.StandingFde.{ItemFault, LookUpFault, Misleads, NamesCieAt, PairFault, RefusesAs, RulesOf, StandsAs, StandsIn};
ghost use Rattle.dw_section.specs.Inner.{PieceHeader.PointsBehind, Pieces.piece_in, StandingFde.{FoundStands, StandsAt, of_steps}};
ghost use Rattle.dw_section.specs.declared.lookup.Fde.{Fde as TheFde};
ghost use Rattle.dw_section.specs.declared.entry.Kind.TheVariants as kind;
ghost use Rattle.dw_section.specs.declared.standing_fde.LookUpError.TheVariants as LookUpError;

use crate::entry::{Kind, MOST, Placed, next_item, refusal, width_of};
use crate::header::{read_behind, read_initial};
use crate::listed_fde::FoundFde;
use crate::lookup::Fde;
use dw_cfa::RowRoom;
use dw_index::Ranged;
use dw_num::{Code, Cursor, ReadError, Refusal, Target, are_bytes, word_in};
use std::marker::Model;
use thiserror::Error;

/// The entry that stands at a place, or none, or what is wrong there.
#[inline(always)]
pub(crate) fn piece_at(bytes: &[u8], at: u64, target: Target) -> Result<Option<Placed<'_>>, Refusal>
    requires { length bytes.now ≤ 2147483647 }
    ensures found { IfOk result (λ o. IfSome o (λ p. (p.at ≡ at) × StandsIn target.order bytes.now (piece_in p))) }
    ensures within { IfErr result (IsWithin bytes.now) }
    ensures fault { IfErr result (ItemFault target bytes.now at) }
    ensures none { IfOk result (λ o. (r : TheRefusal) → ItemFault target bytes.now at r → ⊥) }
    ensures only { (p : Piece) → StandsIn target.order bytes.now p → p.at ≡ at → MatchResult result (λ o. MatchOption o ⊥ (λ q. piece_in q ≡ p)) (λ _. ⊥) }
{
    if at >= bytes.len() as u64 {
        return Ok(None);
    }
    let mut cursor = Cursor::new(&bytes[at as usize..], at, target);
    next_item(&mut cursor)
}

/// The CIE that stands at a place, or none, or what is wrong there.
#[inline(always)]
pub(crate) fn cie_at(bytes: &[u8], at: u64, target: Target) -> Result<Option<Placed<'_>>, Refusal>
    requires { length bytes.now ≤ 2147483647 }
    ensures found { IfOk result (λ o. IfSome o (λ p. (p.at ≡ at) × (p.kind ≡ kind.Cie) × StandsIn target.order bytes.now (piece_in p))) }
    ensures within { IfErr result (IsWithin bytes.now) }
    ensures fault { IfErr result (ItemFault target bytes.now at) }
    ensures none { IfOk result (λ o. (r : TheRefusal) → ItemFault target bytes.now at r → ⊥) }
    ensures only { (p : Piece) → StandsIn target.order bytes.now p → p.at ≡ at → p.kind ≡ kind.Cie →
        MatchResult result (λ o. MatchOption o ⊥ (λ q. piece_in q ≡ p)) (λ _. ⊥) }
{
    let Some(piece) = piece_at(bytes, at, target)? else {
        return Ok(None);
    };
    match piece.kind {
        Kind::Cie => Ok(Some(piece)),
        Kind::Fde => Ok(None),
    }
}

/// The first field of an FDE, the place of its CIE, and a cursor behind it.
#[tactic(auto, unfolding(dw_num::specs::Front::fixed_at))]
#[inline(always)]
pub(crate) fn pointer_of<'a>(piece: &Placed<'a>, target: Target) -> (u64, Cursor<'a>)
    requires { id_width piece.now.form ≤ length piece.now.contents.bytes.now }
    ensures names { NamesCieAt target (piece_in piece.now) result.0 }
    ensures only { (places : List ℕ) (h : FdeHead) → Has target places (piece_in piece.now) (fde h) → result.0 ≡ h.cie_at }
    ensures behind { PointsBehind target (piece_in piece.now) result.0 result.1 }
{
    let (contents, width) = (piece.contents, width_of(piece.form));
    let pointer = word_in(target.order, contents.bytes, width);
    let behind = Cursor::new(&contents.bytes[width..], contents.at + width as u64, target);
    (pointer, behind)
}

// The FDE that stands at a place, with what the CIE that it names says, or none, or what is wrong in either.
#[inline(always)]
fn standing<'a>(bytes: &'a [u8], at: u64, target: Target) -> Result<Option<FoundFde<'a>>, Refusal>
    requires { length bytes.now ≤ 2147483647 }
    ensures found { IfOk result (λ o. IfSome o (λ e. (e.own.at ≡ at) × FoundStands target bytes.now e)) }
    ensures within { IfErr result (IsWithin bytes.now) }
    ensures fault { IfErr result (Then (ItemFault target bytes.now at) (StandsAs target bytes.now kind.Fde at) (PairFault target bytes.now)) }
    ensures unfaulted { IfOk result (λ _. (r : TheRefusal)
        → Then (ItemFault target bytes.now at) (StandsAs target bytes.now kind.Fde at) (PairFault target bytes.now) r → ⊥) }
    ensures only { StandsAt target bytes.now at → MatchResult result IsSome (λ _. ⊥) }
{
    let Some(own) = piece_at(bytes, at, target)? else {
        return Ok(None);
    };
    let Kind::Fde = own.kind else {
        return Ok(None);
    };
    let (pointer, mut cursor) = pointer_of(&own, target);
    let Some(named) = cie_at(bytes, pointer, target)? else {
        return Err(refusal(Code::NoSuchCie, own.contents.at));
    };
    let header = read_behind(&own, pointer, &mut cursor, target)?;
    let cie = read_initial(&named, target)?;
    Ok(Some(FoundFde { own: header, cie }))
}

// How many entries of an index begin at or below an address, where begins ascend.
fn begun(index: &[Ranged], address: u64) -> usize
    ensures bound { result ≤ length index.now }
    ensures divides { Ascends (map range_in index.now) →
        ((k : ℕ) (d : TheRanged) → k < result → (slice_index_or index.now k d).begin ≤ address)
        × ((k : ℕ) (d : TheRanged) → result ≤ k → k < length index.now → address < (slice_index_or index.now k d).begin) }
{
    index.partition_point(|fde| fde.begin <= address)
}

// Whether an address is one of so many from a first one on.
fn covers(begin: u64, range: u64, address: u64) -> bool
    ensures { MatchBool result ((begin ≤ address) × (address < begin + range)) ((begin ≤ address) × (address < begin + range) → ⊥) }
{
    begin <= address && address - begin < range
}

/// Where the entry of an index stands that covers an address.
pub(crate) fn place_of(index: &[Ranged], address: u64) -> Option<usize>
    ensures covers { IfSome result (λ i. (i < length index.now) × ((d : TheRanged) → Covers address (fde_in (slice_index_or index.now i d)))) }
    ensures none { result ≡ None → Uncovered index.now address }
{
    let begun = begun(index, address);
    if begun == 0 {
        return None;
    }
    let last = index[begun - 1];
    if covers(last.begin, last.range, address) {
        return Some(begun - 1);
    }
    None
}

/// Why a look-up in bytes by an index has no answer.
#[derive(Clone, Copy, Debug, PartialEq, Eq, Error)]
pub enum LookUpError {
    /// The index is not the one of these bytes: no FDE that covers the address stands where it says.
    #[error("the index is not the one of these bytes")]
    BadIndex,
    /// What stands there is refused: a fault of the entry, of its CIE, or of their programs up to the row. Or there are more than
    /// 2,147,483,647 bytes: `SectionTooLarge` at 0.
    #[error("{0}")]
    Refused(Refusal),
    /// A request for memory was refused.
    #[error("out of memory")]
    OutOfMemory,
}

impl From<Refusal> for LookUpError {
    ghost from_gives = { λ r e. e ≡ LookUpError.Refused r };

    fn from(refusal: Refusal) -> LookUpError {
        LookUpError::Refused(refusal)
    }
}

impl From<ReadError> for LookUpError {
    ghost from_gives = { λ r e. e ≡ of_steps r };

    fn from(error: ReadError) -> LookUpError {
        match error {
            ReadError::Refused(refusal) => LookUpError::Refused(refusal),
            ReadError::OutOfMemory => LookUpError::OutOfMemory,
        }
    }
}

/// A nonempty FDE to which an index leads, with what its programs are run with. A contract sees the target and the bytes, the
/// FDE's place in them, and an address that the FDE covers.
#[derive(Drop)]
pub struct IndexedFde<'a> {
    pub(crate) bytes: &'a [u8],
    pub(crate) target: Target,
    pub(crate) address: u64,
    pub(crate) found: FoundFde<'a>,
}

impl<'a> Model for IndexedFde<'a> {
    ghost use Rattle.std.specs.Prelude.{◌≤◌, length};
    ghost use Rattle.dw_section.specs.{Meaning.Covers, StandingFde.Indexed, Inner.{Lookup.fde_of, StandingFde.FoundStands}};

    ghost Value = { Indexed };

    ghost view = { λ f. record { target = f.target; bytes = f.bytes.now; at = f.found.own.at; address = f.address; fde = fde_of f.found } };

    ghost invariant = { λ f. FoundStands f.target f.bytes.now f.found × Covers f.address (fde_of f.found) × (length f.bytes.now ≤ 2147483647) };
}

/// The FDE that covers an address by an index of a section's nonempty FDEs, ascending by begin; or none where the index has no entry that covers it. The
/// entry is found by halving; the FDE at its place, and the CIE that this names, are read anew (6.4.1). So bytes and index need not belong together: where
/// they do not, it is the FDE that stands at the place, or an error. Takes no memory.
///
/// `BadIndex` says that no FDE that covers the address stands at the place. `Refused` has `SectionTooLarge` (26) at 0 where there are more than 2,147,483,647
/// bytes, else the first fault in this order: of the entry at the place, and of what begins where its CIE should stand (1, 2, 3); of the FDE's fields (1, 10,
/// 11) and then of the CIE's (1, 4 to 9). It is never `OutOfMemory`.
#[inline(always)]
pub fn fde_by_index<'a>(
    bytes: &'a [u8],
    target: Target,
    index: &[Ranged],
    address: u64,
) -> Result<Option<IndexedFde<'a>>, LookUpError>
    // It stands in these bytes where an entry that covers the address leads, or no entry does.
    ensures found { IfOk result (λ o. MatchOption o (Uncovered index.now address)
        (λ f. (f.target ≡ target) × (f.bytes ≡ bytes.now) × (f.address ≡ address) × LeadsTo index.now address f.at)) }
    // By the index of an accepted section it is the section's FDE that covers the address, or none does.
    ensures own { IsTable target bytes.now index.now → MatchResult result (λ o.
        MatchOption o ((fs : List TheFde) → AreFdes target bytes.now fs → NoneCovers address fs)
        (λ f. (fs : List TheFde) → AreFdes target bytes.now fs → IsAmong f.fde fs)) (λ _. ⊥) }
    // A bad index leads to a place where no FDE that covers the address stands, and no fault either.
    ensures bad { IfErr result (λ e. e ≡ LookUpError.BadIndex → Misleads target bytes.now index.now address) }
    ensures memory { IfErr result (λ e. e ≡ LookUpError.OutOfMemory → ⊥) }
    // A refusal has its place in the bytes or at their end.
    ensures within { IfErr result (RefusesAs (IsWithin bytes.now)) }
    // It is that there are too many bytes, or the first fault of what stands where an entry leads that covers the address.
    ensures refused { IfErr result (RefusesAs (LookUpFault target bytes.now index.now address)) }
{
    if bytes.len() > MOST {
        return Err(LookUpError::Refused(refusal(Code::SectionTooLarge, 0)));
    }
    let Some(place) = place_of(index, address) else {
        return Ok(None);
    };
    let Some(found) = standing(bytes, u64::from(index[place].at), target)? else {
        return Err(LookUpError::BadIndex);
    };
    if !covers(found.own.begin, found.own.range, address) {
        return Err(LookUpError::BadIndex);
    }
    Ok(Some(IndexedFde {
        bytes,
        target,
        address,
        found,
    }))
}

impl<'a> IndexedFde<'a> {
    /// The addresses of the FDE (`initial_location`, `address_range`), and the return address register of its CIE.
    #[inline(always)]
    pub fn fde(&self) -> Fde
        ensures is { result ≡ self.now.fde }
        ensures covers { Covers self.now.address result }
        ensures range { (range : ℕ) × (range < 2 ^ 64) × (result.end ≡ result.begin + range) }
    {
        let own = self.found.own;
        Fde {
            begin: own.begin,
            end: u128::from(own.begin) + u128::from(own.range),
            return_register: self.found.cie.return_register,
        }
    }

    /// Runs the programs of the CIE and of the FDE up to the row of the address (6.4.3), which `room` lends then. Takes memory only for registers above 127
    /// and expressions, and where more than four rows are remembered at once, or more than 64 registers change behind one of them.
    ///
    /// `Refused` has the first fault of the CIE's program and then of the FDE's up to the row (1, 8, 9, 12 to 23, as `dw_cfa::run` has it). `OutOfMemory` is
    /// answered where a request for memory was refused, and `BadIndex` never. Behind an error the room holds some row. Unless the index is that of an
    /// accepted section, the CFA's rule in the row may be `Unset`.
    #[inline(always)]
    pub fn run(&self, room: &mut RowRoom<'a>) -> Result<(), LookUpError>
        // By the index of an accepted section the row has the rules that the section says.
        ensures own { (index : List TheRanged) → IsTable self.now.target self.now.bytes index → LeadsTo index self.now.address self.now.at →
            MatchResult result (λ _. RulesAt self.now.target self.now.bytes self.now.address room.new) (λ e. e ≡ LookUpError.OutOfMemory) }
        // By any other it has those of the FDE.
        ensures found { OnOk result (RulesOf self.now.target self.now.bytes self.now.at self.now.address (record { fde = self.now.fde; row = room.new })) }
        ensures fits { OnOk result (RowFits self.now.target room.new) }
        ensures good { IfErr result (λ e. e ≡ LookUpError.BadIndex → ⊥) }
        ensures within { IfErr result (RefusesAs (IsWithin self.now.bytes)) }
        // It is the first fault of what stands where an entry leads that covers the address.
        ensures refused { (index : List TheRanged) → LeadsTo index self.now.address self.now.at →
            IfErr result (RefusesAs (LookUpFault self.now.target self.now.bytes index self.now.address)) }
    {
        are_bytes(self.bytes);
        let (cie, own) = (self.found.cie, self.found.own);
        are_bytes(cie.program.bytes);
        are_bytes(own.program.bytes);
        let (begin, factors) = (own.begin, cie.factors);
        let (target, address) = (self.target, self.address);
        Ok(room.run_to(cie.program, own.program, begin, factors, target, address)?)
    }
}

/// The FDE that covers an address by an index, whose rules there `room` lends then; or none where the index has no entry that covers
/// it: `fde_by_index`, and `IndexedFde::run` of the FDE that it finds. Errors are those of the first and then those of the second.
#[inline(always)]
pub fn look_up<'a>(
    bytes: &'a [u8],
    target: Target,
    index: &[Ranged],
    address: u64,
    room: &mut RowRoom<'a>,
) -> Result<Option<Fde>, LookUpError>
    // By the index of an accepted section it is what the section says.
    ensures own { IsTable target bytes.now index.now → MatchResult result (λ o.
        MatchOption o ((fs : List TheFde) → AreFdes target bytes.now fs → NoneCovers address fs)
        (λ fde. RulesAt target bytes.now address room.new × ((fs : List TheFde) → AreFdes target bytes.now fs → IsAmong fde fs)))
        (λ e. e ≡ LookUpError.OutOfMemory) }
    // By any other it is what the FDE says that stands where an entry that covers the address leads, or none where no entry does.
    ensures found { IfOk result (λ o. MatchOption o (Uncovered index.now address)
        (λ fde. (at : ℕ) × LeadsTo index.now address at × RulesOf target bytes.now at address (record { fde = fde; row = room.new }))) }
    ensures range { IfOk result (λ o. IfSome o (λ fde. (range : ℕ) × (range < 2 ^ 64) × (fde.end ≡ fde.begin + range))) }
    ensures fits { IfOk result (λ o. IfSome o (λ _. RowFits target room.new)) }
    ensures bad { IfErr result (λ e. e ≡ LookUpError.BadIndex → Misleads target bytes.now index.now address) }
    ensures within { IfErr result (RefusesAs (IsWithin bytes.now)) }
    // It is that there are too many bytes, or the first fault of what stands where an entry leads that covers the address.
    ensures refused { IfErr result (RefusesAs (LookUpFault target bytes.now index.now address)) }
{
    let Some(found) = fde_by_index(bytes, target, index, address)? else {
        return Ok(None);
    };
    found.run(room)?;
    Ok(Some(found.fde()))
}
