//! Cutting a section into its entries (6.4.1, 7.4).

ghost use Rattle.std.specs.Prelude.{◌≡◌, ◌+◌, ◌<◌, ◌≤◌, List, [], ◌∷◌, ◌++◌, length, MatchResult, IfOk, IfErr, IfSome, OnOk};
ghost use Rattle.dw_num.specs.{Input.Takes, Refusals.Refuses, declared.{error.ReadError.TheVariants.OutOfMemory, refusal.Code.TheVariants.SectionTooLarge}};
ghost use Rattle.dw_op.specs.Faults.{IsWithin};
ghost use Rattle.dw_section.specs.{Cut.{IsItem, Piece, item_bytes, is_cie, id_width}, Faults.{item_at, CutFault}, Pieces.{Pieces, Entries}};
ghost use Rattle.dw_section.specs.Inner.{Left.{PiecesLeft, GivesPiece, GoesOn}, Pieces.{ArePlaced, IsPlaced, item_of, piece_in}, Reads.Gives};
ghost use Rattle.dw_section.specs.declared.entry.Entry.{Entry};

use byteorder::{ByteOrder, LittleEndian};
use dw_num::{Code, Cursor, Form, Program, ReadError, Refusal, Target, are_bytes};
use std::alloc::{AllocError, Global};

/// What an entry is (6.4.1).
#[derive(Clone, Copy, Debug, PartialEq, Eq)]
pub enum Kind {
    /// A common information entry: its first field, `CIE_id`, is 0xffffffff, or 0xffffffffffffffff in the 64-bit form (7.24).
    Cie,
    /// A frame description entry: its first field, `CIE_pointer`, names a CIE.
    Fde,
}

/// An entry of a section: a CIE or an FDE (6.4.1).
#[derive(Clone, Copy, Debug, PartialEq, Eq)]
pub struct Entry {
    /// The place of its first byte.
    pub at: u64,
    /// Whether it is a CIE or an FDE.
    pub kind: Kind,
    /// Whether its `length` is of the 32-bit or the 64-bit form (7.4).
    pub form: Form,
    /// Its `length`: how many bytes follow that field.
    pub length: u64,
}

/// How many entries of each kind a section has (6.4.1).
#[derive(Clone, Copy, Debug, PartialEq, Eq)]
pub struct EntryCounts {
    /// Common information entries (CIEs): those whose `CIE_id` is all ones.
    pub cies: usize,
    /// Frame description entries (FDEs): those that have a `CIE_pointer`.
    pub fdes: usize,
}

#[inline(always)]
pub(crate) fn refusal(code: Code, at: u64) -> Refusal
    ensures { result ≡ record { code = code; at = at } }
{
    Refusal { code, at }
}

pub(crate) const MOST: usize = 2_147_483_647;

pub(crate) fn width_of(form: Form) -> usize
    ensures { result ≡ id_width form }
{
    match form {
        Form::Dwarf32 => 4,
        Form::Dwarf64 => 8,
    }
}

// What an entry is by its first field, all of whose bytes are compared at once, as a number.
#[tactic(auto, using(crate::proofs::Items::four_ones, crate::proofs::Items::eight_ones))]
#[inline(always)]
fn kind_in(form: Form, body: &[u8]) -> Kind
    requires { id_width form ≤ length body.now }
    ensures { result ≡ is_cie form body.now }
{
    are_bytes(body);
    match form {
        Form::Dwarf32 if LittleEndian::read_u32(&body[..4]) == 0xffff_ffff => Kind::Cie,
        Form::Dwarf64 if LittleEndian::read_u64(&body[..8]) == 0xffff_ffff_ffff_ffff => Kind::Cie,
        _ => Kind::Fde,
    }
}

/// An entry with its place, and its contents with theirs.
#[derive(Clone, Copy)]
pub(crate) struct Placed<'a> {
    pub(crate) at: u64,
    pub(crate) form: Form,
    pub(crate) kind: Kind,
    pub(crate) contents: Program<'a>,
}

/// What stands at the front of a section: an entry, or none where it is a gap.
#[tactic(auto, unfolding(crate::specs::Faults::item_at, dw_num::specs::Front::take_at))]
#[inline(always)]
pub(crate) fn next_item<'a>(cursor: &mut Cursor<'a>) -> Result<Option<Placed<'a>>, Refusal>
    requires { cursor.old.at + length cursor.old.bytes ≤ 2147483647 }
    ensures found { IfOk result (λ p. IsItem (item_of p) × Takes cursor.old (item_bytes cursor.old.target.order (item_of p)) cursor.new) }
    ensures placed { IfOk result (IsPlaced cursor.old) }
    ensures exact { Gives item_of result (item_at cursor.old) cursor.new }
{
    let at = cursor.at();
    let unit = cursor.unit_length()?;
    let form = unit.form;
    if unit.length == 0 && form == Form::Dwarf32 {
        return Ok(None);
    }
    let place = cursor.at();
    let Ok(bytes) = cursor.take(unit.length) else {
        return Err(refusal(Code::EntryPastEnd, at));
    };
    if bytes.len() < width_of(form) {
        return Err(refusal(Code::Truncated, place));
    }
    Ok(Some(Placed {
        at,
        form,
        kind: kind_in(form, bytes),
        contents: Program { bytes, at: place },
    }))
}

// The next entry of a section that has a cut, or none behind the last one.
#[tactic(auto, using(crate::proofs::Left::left_gap, crate::proofs::Left::takes_stays, crate::proofs::Left::stays_then, crate::proofs::Left::shorter_by))]
#[inline(always)]
pub(crate) fn next_piece<'a>(cursor: &mut Cursor<'a>) -> Option<Placed<'a>>
    requires { cursor.old.at + length cursor.old.bytes ≤ 2147483647 }
    ensures gives { (ps : List Piece) → PiecesLeft cursor.old ps → GivesPiece cursor.new result ps }
    ensures on { GoesOn cursor.old result cursor.new }
    ensures below { IfSome result (λ p. p.at ≤ 2147483647) }
{
    'gaps: while cursor.left() > 0 {
        match next_item(cursor) {
            Ok(None) => {}
            Ok(Some(piece)) => return Some(piece),
            Err(_) => return None,
        }
    }
    None
}

// A cursor over a section that is not too long.
fn start<'a>(bytes: &'a [u8], target: Target) -> Result<Cursor<'a>, Refusal>
    ensures found { IfOk result (λ c. (c ≡ record { at = 0; bytes = bytes.now; target = target }) × (length bytes.now ≤ 2147483647)) }
    ensures stuck { IfErr result (λ r. (2147483647 < length bytes.now) × (r ≡ record { code = SectionTooLarge; at = 0 })) }
{
    if bytes.len() > MOST {
        return Err(refusal(Code::SectionTooLarge, 0));
    }
    Ok(Cursor::new(bytes, 0, target))
}

/// Where the CIEs of a section stand, and how many FDEs it has.
#[derive(Drop)]
pub(crate) struct EntryPlaces {
    pub(crate) cies: Vec<u64>,
    pub(crate) fdes: usize,
}

fn keep_entry(places: &mut EntryPlaces, piece: &Placed<'_>) -> Result<(), AllocError>
    requires { places.old.fdes ≤ 2147483647 }
    ensures { (ps : List Piece) → ArePlaced ps places.old → OnOk result (ArePlaced (ps ++ piece_in piece.now ∷ []) places.new) }
{
    match piece.kind {
        Kind::Cie => places.cies.push(piece.at)?,
        Kind::Fde => places.fdes += 1,
    }
    Ok(())
}

/// Cuts a section, and keeps where its CIEs stand.
pub(crate) fn cut(alloc: Global, bytes: &[u8], target: Target) -> Result<EntryPlaces, ReadError>
    ensures found { IfOk result (λ n. (ps : List Piece) × Pieces target bytes.now ps × ArePlaced ps n) }
    ensures first { IfErr result (Refuses (CutFault target bytes.now)) }
{
    let mut cursor = start(bytes, target)?;
    let mut places = EntryPlaces {
        cies: Vec::new(alloc),
        fdes: 0,
    };
    'items: while cursor.left() > 0 {
        match next_item(&mut cursor)? {
            None => {}
            Some(piece) => keep_entry(&mut places, &piece)?,
        }
    }
    Ok(places)
}

fn all_entries(alloc: Global, bytes: &[u8], target: Target) -> Result<Vec<Entry>, ReadError>
    ensures found { IfOk result (λ v. Entries target bytes.now v.items) }
    ensures first { IfErr result (Refuses (CutFault target bytes.now)) }
{
    let mut cursor = start(bytes, target)?;
    let mut found = Vec::new(alloc);
    'items: while cursor.left() > 0 {
        match next_item(&mut cursor)? {
            None => {}
            Some(piece) => found.push(Entry {
                at: piece.at,
                kind: piece.kind,
                form: piece.form,
                length: piece.contents.bytes.len() as u64,
            })?,
        }
    }
    Ok(found)
}

/// The entries of a section in order of place, CIEs and FDEs of both forms, gaps left out. Their fields and programs are not looked at.
///
/// A refusal is the first fault of size and cut: `SectionTooLarge` (26) at 0 above 2,147,483,647 bytes; then by place, and of one entry in this order,
/// `Truncated` (1) or `ReservedLength` (2) at its length, `EntryPastEnd` (3) at the entry, and `Truncated` (1) at its first field, where the entry is too
/// short for that. `OutOfMemory` may come in place of any answer: the list takes memory, and nothing else does.
pub fn entries(alloc: Global, bytes: &[u8], target: Target) -> Result<Vec<Entry>, ReadError>
    // They are the entries of the section's cut.
    ensures found { IfOk result (λ v. Entries target bytes.now v.items) }
    // A section that has a cut is not refused.
    ensures only { (es : List Entry) → Entries target bytes.now es → MatchResult result (λ v. v.items ≡ es) (λ e. e ≡ OutOfMemory) }
    // A refusal is the first fault.
    ensures first { IfErr result (Refuses (CutFault target bytes.now)) }
    // Its place is in the section or at its end.
    ensures within { IfErr result (Refuses (IsWithin bytes.now)) }
{
    all_entries(alloc, bytes, target)
}
