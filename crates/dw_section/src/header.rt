//! The headers of a section: the fields of its entries.

ghost use Rattle.std.specs.Prelude.{◌≡◌, ◌+◌, ◌≤◌, ℕ, true, Err, List, length, map, IfOk, IfErr, IfSome, MatchResult};
ghost use Rattle.dw_num.specs.{Refusals.Refuses, Span.span_of, declared.error.ReadError.TheVariants.OutOfMemory};
ghost use Rattle.dw_op.specs.Faults.{IsWithin};
ghost use Rattle.dw_section.specs.{Counts.AreCounts, Cut.{Piece, id_width}, Fields.is_among, Headers.{Head, Has, Headers, head_in, CieHolds, CiesHold}};
ghost use Rattle.dw_section.specs.{Headers.{CieFieldsFault, CieStuck, FdeStuck, HeadersFault}, Pieces.Pieces, Places.cie_places, StandingFde.StandsIn};
ghost use Rattle.dw_section.specs.Inner.{Initials.{AreCies, IsRead}, PieceHeader.{PointsBehind, SaysFde, cie_at, fde_at, initial_in, entry_in, program_of}};
ghost use Rattle.dw_section.specs.Inner.{Left.FieldsFaultOr, Pieces.piece_in, Places.{IsAt, Rises}, Stage.Answers};
ghost use Rattle.dw_section.specs.declared.entry.Kind.TheVariants as kind;

use crate::entry::{EntryCounts, Kind, Placed, cut, next_piece, refusal, width_of};
use crate::fields::{has_place, read_cie, read_range};
use crate::standing_fde::cie_at;
use dw_cfa::Factors;
use dw_num::{Code, Cursor, Form, Program, ReadError, Refusal, Target, are_bytes};
use std::alloc::Global;

/// The fields of an entry (6.4.1). Its program is the rest of the entry's contents, nops among it. `at` is the place of the entry's first byte, `cie_at`
/// that of the CIE that an FDE names; `begin` and `range` are in addresses, and their sum is at most 2^N.
#[derive(Clone, Copy, Debug, PartialEq, Eq)]
pub enum Header<'a> {
    /// A common information entry, whose `CIE_id` is all ones. Its `version`, `augmentation`, `address_size` and
    /// `segment_selector_size` are judged, and not kept.
    Cie {
        /// The place of its `length`.
        at: u64,
        /// Whether its `length` is of the 32-bit or the 64-bit form (7.4).
        form: Form,
        /// `code_alignment_factor`.
        code_factor: u64,
        /// `data_alignment_factor`.
        data_factor: i64,
        /// `return_address_register`.
        return_register: u16,
        /// `initial_instructions`, with the padding.
        program: Program<'a>,
    },
    /// A frame description entry.
    Fde {
        /// The place of its `length`.
        at: u64,
        /// Whether its `length` is of the 32-bit or the 64-bit form (7.4).
        form: Form,
        /// `CIE_pointer`: the place of the CIE in the section.
        cie_at: u64,
        /// `initial_location`.
        begin: u64,
        /// `address_range`.
        range: u64,
        /// `instructions`, with the padding.
        program: Program<'a>,
    },
}

#[inline(always)]
fn rest_of<'a>(cursor: &Cursor<'a>) -> Program<'a>
    requires { cursor.now.at + length cursor.now.bytes ≤ 2147483647 }
    ensures { span_of result ≡ program_of cursor.now }
{
    Program {
        bytes: cursor.rest(),
        at: cursor.at(),
    }
}

/// What a CIE says, and its program.
#[derive(Clone, Copy)]
pub(crate) struct Initial<'a> {
    pub(crate) at: u64,
    pub(crate) form: Form,
    pub(crate) factors: Factors,
    pub(crate) return_register: u16,
    pub(crate) program: Program<'a>,
}

/// What an FDE says, and its program.
#[derive(Clone, Copy)]
pub(crate) struct FdeEntry<'a> {
    pub(crate) at: u64,
    pub(crate) form: Form,
    pub(crate) cie_at: u64,
    pub(crate) begin: u64,
    pub(crate) range: u64,
    pub(crate) program: Program<'a>,
}

/// Reads an entry that is a CIE.
#[tactic(auto, unfolding(crate::specs::Inner::PieceHeader::cie_at, dw_num::specs::Front::fixed_at))]
#[inline(always)]
pub(crate) fn read_initial<'a>(piece: &Placed<'a>, target: Target) -> Result<Initial<'a>, Refusal>
    requires kind { piece.now.kind ≡ kind.Cie }
    requires id { id_width piece.now.form ≤ length piece.now.contents.bytes.now }
    ensures exact { Answers initial_in result (cie_at target (piece_in piece.now)) }
    ensures found { IfOk result (IsRead target (piece_in piece.now)) }
{
    let (contents, width) = (piece.contents, width_of(piece.form));
    are_bytes(contents.bytes);
    let mut cursor = Cursor::new(&contents.bytes[width..], contents.at + width as u64, target);
    let fields = read_cie(&mut cursor, target.size)?;
    Ok(Initial {
        at: piece.at,
        form: piece.form,
        factors: Factors {
            code_factor: fields.code_factor,
            data_factor: fields.data_factor,
        },
        return_register: fields.return_register,
        program: rest_of(&cursor),
    })
}

/// Reads an entry that is an FDE behind the place of its CIE.
#[inline(always)]
pub(crate) fn read_behind<'a>(
    piece: &Placed<'a>,
    cie_at: u64,
    cursor: &mut Cursor<'a>,
    target: Target,
) -> Result<FdeEntry<'a>, Refusal>
    requires kind { piece.now.kind ≡ kind.Fde }
    requires pointer { PointsBehind target (piece_in piece.now) cie_at cursor.old }
    ensures stuck { (places : List ℕ) → is_among cie_at places ≡ true → IfErr result (λ r. fde_at target places (piece_in piece.now) ≡ Err r) }
    ensures found { (places : List ℕ) → is_among cie_at places ≡ true → IfOk result (λ e. Has target places (piece_in piece.now) (entry_in e)) }
    ensures cie_at { IfOk result (λ e. e.cie_at ≡ cie_at) }
{
    are_bytes(piece.contents.bytes);
    let fields = read_range(cursor, cie_at)?;
    Ok(FdeEntry {
        at: piece.at,
        form: piece.form,
        cie_at: fields.cie_at,
        begin: fields.begin,
        range: fields.range,
        program: rest_of(cursor),
    })
}

/// Reads an entry that is an FDE, where CIEs stand at these places.
#[tactic(auto, unfolding(crate::specs::Inner::PieceHeader::fde_at))]
#[inline(always)]
pub(crate) fn read_entry<'a>(
    piece: &Placed<'a>,
    places: &[u64],
    found: &mut usize,
    target: Target,
) -> Result<FdeEntry<'a>, Refusal>
    requires kind { piece.now.kind ≡ kind.Fde }
    requires ascending { Rises 0 places.now }
    ensures stuck { IfErr result (λ r. fde_at target places.now (piece_in piece.now) ≡ Err r) }
    ensures found { IfOk result (λ e. Has target places.now (piece_in piece.now) (entry_in e)) }
    ensures at { IfOk result (λ e. IsAt places.now found.new e.cie_at) }
{
    let contents = piece.contents;
    let mut cursor = Cursor::new(contents.bytes, contents.at, target);
    let cie_at = cursor.fixed(width_of(piece.form))?;
    if !has_place(places, cie_at, found) {
        return Err(refusal(Code::NoSuchCie, contents.at));
    }
    read_behind(piece, cie_at, &mut cursor, target)
}

/// How many entries a section has, where its CIEs stand, and what these say.
#[derive(Drop)]
pub(crate) struct Cies<'a> {
    pub(crate) counts: EntryCounts,
    pub(crate) places: Vec<u64>,
    pub(crate) initials: Vec<Initial<'a>>,
}

fn read_cie_at<'a>(bytes: &'a [u8], at: u64, target: Target) -> Result<Initial<'a>, Refusal>
    requires small { length bytes.now ≤ 2147483647 }
    requires stands { (p : Piece) × StandsIn target.order bytes.now p × (p.at ≡ at) × (p.kind ≡ kind.Cie) }
    ensures found { (p : Piece) → StandsIn target.order bytes.now p → p.at ≡ at → p.kind ≡ kind.Cie → IfOk result (IsRead target p) }
    ensures stuck { (p : Piece) → StandsIn target.order bytes.now p → p.at ≡ at → p.kind ≡ kind.Cie → IfErr result (CieStuck target p) }
{
    match cie_at(bytes, at, target)? {
        Some(piece) => read_initial(&piece, target),
        None => unreachable!(),
    }
}

// Reads the CIEs of a section that has a cut, which stand at these places.
fn read_cies<'a>(
    alloc: Global,
    bytes: &'a [u8],
    target: Target,
    places: &[u64],
) -> Result<Vec<Initial<'a>>, ReadError>
    requires pieces { (ps : List Piece) × Pieces target bytes.now ps × (places.now ≡ cie_places ps) }
    ensures found { (ps : List Piece) → Pieces target bytes.now ps → places.now ≡ cie_places ps → IfOk result (λ v. AreCies target ps places.now v.items) }
    ensures first { IfErr result (Refuses (CieFieldsFault target bytes.now)) }
{
    let mut initials = Vec::with_capacity(alloc, places.len())?;
    for at in places {
        initials.push(read_cie_at(bytes, *at, target)?)?;
    }
    Ok(initials)
}

/// What a piece says that is an FDE. Of a CIE it is nothing.
#[tactic(auto, using(crate::proofs::Lent::HeaderLaws::fde_faulty))]
#[inline(always)]
pub(crate) fn fde_of<'a>(
    piece: &Placed<'a>,
    places: &[u64],
    found: &mut usize,
    target: Target,
) -> Result<Option<FdeEntry<'a>>, Refusal>
    requires { Rises 0 places.now }
    ensures found { IfOk result (SaysFde target places.now (piece_in piece.now)) }
    ensures at { IfOk result (λ o. IfSome o (λ fde. IsAt places.now found.new fde.cie_at)) }
    ensures stuck { IfErr result (FdeStuck target places.now (piece_in piece.now)) }
{
    match piece.kind {
        Kind::Cie => Ok(None),
        Kind::Fde => read_entry(piece, places, found, target).map(Some),
    }
}

/// The error of a program, unless the fields of an FDE that is left have a fault, which comes first.
pub(crate) fn or_fields_fault(
    cursor: &mut Cursor<'_>,
    target: Target,
    places: &[u64],
    broken: ReadError,
) -> ReadError
    requires room { cursor.old.at + length cursor.old.bytes ≤ 2147483647 }
    requires ascending { Rises 0 places.now }
    ensures { FieldsFaultOr broken target places.now cursor.old result }
{
    let mut found = 0;
    'pieces: while let Some(piece) = next_piece(cursor) {
        if let Err(refusal) = fde_of(&piece, places, &mut found, target) {
            return ReadError::Refused(refusal);
        }
    }
    broken
}

// The header of an entry whose fields hold if it is a CIE.
#[inline(always)]
fn header_of<'a>(
    piece: &Placed<'a>,
    places: &[u64],
    found: &mut usize,
    target: Target,
) -> Result<Header<'a>, Refusal>
    requires holds { CieHolds target (piece_in piece.now) }
    requires ascending { Rises 0 places.now }
    ensures found { IfOk result (λ h. Has target places.now (piece_in piece.now) (head_in h)) }
    ensures stuck { IfErr result (FdeStuck target places.now (piece_in piece.now)) }
{
    let Some(fde) = fde_of(piece, places, found, target)? else {
        let cie = read_initial(piece, target)?;
        return Ok(Header::Cie {
            at: cie.at,
            form: cie.form,
            code_factor: cie.factors.code_factor,
            data_factor: cie.factors.data_factor,
            return_register: cie.return_register,
            program: cie.program,
        });
    };
    Ok(Header::Fde {
        at: fde.at,
        form: fde.form,
        cie_at: fde.cie_at,
        begin: fde.begin,
        range: fde.range,
        program: fde.program,
    })
}

// Reads the fields of the entries of a section that has a cut, behind those of its CIEs.
fn read_headers<'a>(
    alloc: Global,
    bytes: &'a [u8],
    target: Target,
    places: &[u64],
    count: usize,
) -> Result<Vec<Header<'a>>, ReadError>
    requires ascending { Rises 0 places.now }
    requires cies { (ps : List Piece) × CiesHold target bytes.now ps × (places.now ≡ cie_places ps) }
    ensures found { IfOk result (λ v. Headers target bytes.now (map head_in v.items)) }
    ensures first { IfErr result (Refuses (HeadersFault target bytes.now)) }
{
    let mut cursor = Cursor::new(bytes, 0, target);
    let mut headers = Vec::with_capacity(alloc, count)?;
    let mut found = 0;
    'pieces: while let Some(piece) = next_piece(&mut cursor) {
        headers.push(header_of(&piece, places, &mut found, target)?)?;
    }
    Ok(headers)
}

/// Cuts a section, and reads the fields of its CIEs.
pub(crate) fn cies_of(alloc: Global, bytes: &[u8], target: Target) -> Result<Cies<'_>, ReadError>
    ensures found { IfOk result (λ c. (ps : List Piece) × Pieces target bytes.now ps × AreCies target ps c.places.items c.initials.items) }
    ensures counts { IfOk result (λ c. (ps : List Piece) → Pieces target bytes.now ps → AreCounts ps c.counts) }
    ensures ascending { IfOk result (λ c. Rises 0 c.places.items) }
    ensures first { IfErr result (Refuses (CieFieldsFault target bytes.now)) }
{
    let places = cut(alloc, bytes, target)?;
    let initials = read_cies(alloc, bytes, target, &places.cies)?;
    Ok(Cies {
        counts: EntryCounts {
            cies: places.cies.len(),
            fdes: places.fdes,
        },
        places: places.cies,
        initials,
    })
}

#[tactic(auto, using(crate::proofs::Counts::few_pieces))]
fn all_headers(alloc: Global, bytes: &[u8], target: Target) -> Result<Vec<Header<'_>>, ReadError>
    ensures found { IfOk result (λ v. Headers target bytes.now (map head_in v.items)) }
    ensures first { IfErr result (Refuses (HeadersFault target bytes.now)) }
{
    let cies = cies_of(alloc, bytes, target)?;
    let count = cies.counts.cies + cies.counts.fdes;
    read_headers(alloc, bytes, target, &cies.places, count)
}

/// The headers of a section in order of place: the fields of each entry, CIEs of versions 1, 3 and 4 in both forms, and FDEs. Programs are not looked at.
///
/// A refusal is the first fault of size and cut (1, 2, 3 and 26, as `entries` has it); then of the fields of CIEs by place, each from left to right:
/// `Truncated` (1), `BadVersion` (4), `Augmentation` (5), `AddressSize` (6), `SegmentSelector` (7), `NumberTooLarge` (8), `RegisterTooLarge` (9); then of the
/// fields of FDEs by place: `Truncated` (1), `NoSuchCie` (10), `RangeTooLarge` (11). Each has its place at the field. `OutOfMemory` may come in place of any
/// answer: memory is taken for the list, and for the places and the fields of CIEs. A pointer is looked up by halving.
pub fn headers<'a>(
    alloc: Global,
    bytes: &'a [u8],
    target: Target,
) -> Result<Vec<Header<'a>>, ReadError>
    // They are the headers of the section.
    ensures found { IfOk result (λ v. Headers target bytes.now (map head_in v.items)) }
    // A section that has headers is not refused.
    ensures only { (hs : List Head) → Headers target bytes.now hs → MatchResult result (λ v. map head_in v.items ≡ hs) (λ e. e ≡ OutOfMemory) }
    // A refusal is the first fault.
    ensures first { IfErr result (Refuses (HeadersFault target bytes.now)) }
    // Its place is in the section or at its end.
    ensures within { IfErr result (Refuses (IsWithin bytes.now)) }
{
    all_headers(alloc, bytes, target)
}
