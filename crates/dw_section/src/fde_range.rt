//! Running the programs of a section (6.4.2, 6.4.3), and its nonempty FDEs.

ghost use Rattle.std.specs.{List.AllByRecursion, Prelude.{◌≡◌, ◌<◌, ℕ, List, map, IfErr, IfOk, OnOk, ◌≤◌, None, [], ◌∷◌, ◌++◌}};
ghost use Rattle.dw_num.specs.{Refusals.Refuses, Target.address_limit, declared.target.Target.{Target as TheTarget}};
ghost use Rattle.dw_section.specs.{Accepted.{CheckFault, RulesFault}, Cut.Piece, Headers.Head, Overlap.nonempty};
ghost use Rattle.dw_section.specs.{Pieces.Pieces, Programs.{CieRuns, CieBroken}, Ranges.{IsTable, range_in}, Stage.FirstStuck};
ghost use Rattle.dw_section.specs.Inner.{Index.{JudgesOne, BreaksOne, AreAllJudged, ListsOf}};
ghost use Rattle.dw_section.specs.Inner.{Initials.{place_of, AreAmong, AreOf, AreCies}, PieceHeader.{entry_in, initial_in}, Places.{Rises, IsAt}, Walks.AreLed};

use crate::entry::{next_piece, refusal};
use crate::header::{Cies, FdeEntry, Initial, fde_of, or_fields_fault};
use crate::walks::Walks;
use dw_cfa::become_initial;
use dw_index::{Ranged, first_overlap, put_in_order};
use dw_num::{Code, Cursor, ReadError, Target, are_bytes};
use dw_row::Row;
use std::alloc::{AllocError, Global};

/// What judging FDEs finds: the nonempty ones in order of place, and the place of the first one with an address that has no rule for the CFA.
#[derive(Drop)]
pub(crate) struct Judged {
    pub(crate) list: Vec<Ranged>,
    pub(crate) lacking: Option<u64>,
}

/// Runs the programs of CIEs.
pub(crate) fn run_cies(
    alloc: Global,
    initials: &[Initial<'_>],
    target: Target,
) -> Result<(), ReadError>
    ensures found { (hs : List Head) → AreOf hs initials.now → OnOk result (AllByRecursion (CieRuns target) hs) }
    ensures first { (hs : List Head) → AreOf hs initials.now → IfErr result (Refuses (FirstStuck (CieRuns target) (CieBroken target) hs)) }
{
    let mut row = Row::blank(alloc);
    for cie in initials {
        become_initial(&mut row, cie.program, cie.factors, target)?;
    }
    Ok(())
}

// Lists an FDE that is not empty.
fn keep_range(
    list: &mut Vec<Ranged>,
    fde: &FdeEntry<'_>,
    cie: &Initial<'_>,
) -> Result<(), AllocError>
    requires names { cie.now.at ≡ fde.now.cie_at }
    requires below { fde.now.at ≤ 2147483647 }
    ensures found { OnOk result (map range_in list.new.items ≡ map range_in list.old.items ++ nonempty (entry_in fde.now ∷ [])) }
    ensures each { ListsOf (initial_in cie.now) (entry_in fde.now) list.old.items result list.new.items }
{
    if fde.range > 0 {
        list.push(Ranged {
            begin: fde.begin,
            range: fde.range,
            at: fde.at as u32,
            return_register: cie.return_register,
        })?;
    }
    Ok(())
}

// Runs the program of an FDE behind that of its CIE, which stands at a place among the initials, and keeps what is found.
#[inline(always)]
fn judge<'a>(
    walks: &mut Walks<'a>,
    judged: &mut Judged,
    fde: &FdeEntry<'a>,
    initials: &[Initial<'a>],
    found: usize,
    target: Target,
) -> Result<(), ReadError>
    requires fits { (fde.now.at ≤ 2147483647) × (fde.now.begin < address_limit target.size) × IsAt (map place_of initials.now) found fde.now.cie_at }
    requires each { (hs : List Head) × AreAmong hs initials.now × AreLed target hs walks.old }
    ensures found { JudgesOne target initials.now walks.old (entry_in fde.now) judged.old result judged.new }
    ensures stuck { BreaksOne target initials.now walks.old (entry_in fde.now) result }
    ensures led { (hs : List Head) → AreAmong hs initials.now → AreLed target hs walks.old → AreLed target hs walks.new }
{
    let cie = &initials[found];
    walks.lead(cie, target);
    are_bytes(fde.program.bytes);
    walks.walk.go_to(fde.program, fde.begin);
    let end = u128::from(fde.begin) + u128::from(fde.range);
    let lacks = walks.walk.lacks_rule(end)?;
    judged.lacking = judged.lacking.or(lacks.then_some(fde.at));
    Ok(keep_range(&mut judged.list, fde, cie)?)
}

// Judges the FDEs of a section that has a cut, behind the CIEs.
fn run_on<'a>(
    walks: &mut Walks<'a>,
    judged: &mut Judged,
    bytes: &'a [u8],
    target: Target,
    places: &[u64],
    initials: &[Initial<'a>],
) -> Result<(), ReadError>
    requires ascending { Rises 0 places.now }
    requires cies { (ps : List Piece) × Pieces target bytes.now ps × AreCies target ps places.now initials.now }
    requires run { (hs : List Head) → AreOf hs initials.now → AllByRecursion (CieRuns target) hs }
    requires led { (hs : List Head) → AreLed target hs walks.old }
    requires none { (judged.old.list.items ≡ []) × (judged.old.lacking ≡ None) }
    ensures found { OnOk result (AreAllJudged target bytes.now judged.new) }
    ensures first { IfErr result (Refuses (RulesFault target bytes.now)) }
{
    let mut cursor = Cursor::new(bytes, 0, target);
    let mut found = 0;
    'pieces: while let Some(piece) = next_piece(&mut cursor) {
        let Some(fde) = fde_of(&piece, places, &mut found, target)? else {
            continue;
        };
        if let Err(broken) = judge(walks, judged, &fde, initials, found, target) {
            return Err(or_fields_fault(&mut cursor, target, places, broken));
        }
    }
    Ok(())
}

// Puts in order what was judged of a section, unless an address lacks a rule or two FDEs share one.
fn ordered(judged: Judged) -> Result<Vec<Ranged>, ReadError>
    requires { (target : TheTarget) × (s : List ℕ) × AreAllJudged target s judged }
    ensures found { (target : TheTarget) (s : List ℕ) → AreAllJudged target s judged → IfOk result (λ index. IsTable target s index.items) }
    ensures first { (target : TheTarget) (s : List ℕ) → AreAllJudged target s judged → IfErr result (Refuses (CheckFault target s)) }
{
    if let Some(at) = judged.lacking {
        return Err(ReadError::Refused(refusal(Code::NoCfaRule, at)));
    }
    let mut index = judged.list;
    put_in_order(&mut index)?;
    match first_overlap(&index) {
        Some(at) => Err(ReadError::Refused(refusal(Code::Overlap, at))),
        None => Ok(index),
    }
}

/// Reads the FDEs of a section that has a cut, runs their programs behind those of its CIEs, and puts them in order. Apart from `checked`, which owns a table.
pub(crate) fn run_fdes<'a>(
    alloc: Global,
    bytes: &'a [u8],
    target: Target,
    cies: &Cies<'a>,
) -> Result<Vec<Ranged>, ReadError>
    requires ascending { Rises 0 cies.now.places.items }
    requires cies { (ps : List Piece) × Pieces target bytes.now ps × AreCies target ps cies.now.places.items cies.now.initials.items }
    requires run { (hs : List Head) → AreOf hs cies.now.initials.items → AllByRecursion (CieRuns target) hs }
    ensures found { IfOk result (λ index. IsTable target bytes.now index.items) }
    ensures first { IfErr result (Refuses (CheckFault target bytes.now)) }
{
    let mut judged = Judged {
        list: Vec::with_capacity(alloc, cies.counts.fdes)?,
        lacking: None,
    };
    let mut walks = Walks::new(alloc, target);
    let (places, initials) = (&cies.places, &cies.initials);
    let ran = run_on(&mut walks, &mut judged, bytes, target, places, initials);
    drop(walks);
    ran?;
    ordered(judged)
}
