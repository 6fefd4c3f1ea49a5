//! The fields of CIEs and FDEs.

ghost use Rattle.std.specs.Prelude.{◌≡◌, ◌+◌, ◌||◌, ℕ, true, Ok, position, ◌==◌, IfOk};
ghost use Rattle.dw_num.specs.{Target.address_limit, declared.refusal.Code.TheVariants.BadVersion};
ghost use Rattle.dw_section.specs.Fields.{Fields, field, fixed, unless, empty_string, sizes, return_register, factors, is_among};
ghost use Rattle.dw_section.specs.Inner.{Fields.{Passes, behind_id, behind_pointer, fields_at}, Places.{IsAt, Rises}, Reads.Gives};
ghost use Rattle.dw_section.specs.declared.fields.CieFields.{CieFields as TheCieFields};

use crate::entry::refusal;
use dw_num::{Code, Cursor, Refusal, Size};

#[derive(Clone, Copy)]
pub(crate) struct CieFields {
    pub(crate) code_factor: u64,
    pub(crate) data_factor: i64,
    pub(crate) return_register: u16,
}

#[derive(Clone, Copy)]
pub(crate) struct FdeFields {
    pub(crate) cie_at: u64,
    pub(crate) begin: u64,
    pub(crate) range: u64,
}

fn want_byte(cursor: &mut Cursor<'_>, wanted: u8, code: Code) -> Result<(), Refusal>
    ensures { (rest : Fields TheCieFields) →
        Passes result (fields_at (field (fixed 1) (λ n. unless (n == wanted) code) (λ n. rest)) cursor.old) (λ v. fields_at rest cursor.new) }
{
    let at = cursor.at();
    let byte = cursor.byte()?;
    if byte != wanted {
        return Err(Refusal { code, at });
    }
    Ok(())
}

fn read_version(cursor: &mut Cursor<'_>) -> Result<u8, Refusal>
    ensures { (rest : ℕ → Fields TheCieFields) →
        Passes result (fields_at (field (fixed 1) (λ v. unless (v == 1 || (v == 3 || v == 4)) BadVersion) rest) cursor.old)
        (λ v. fields_at (rest v) cursor.new) }
{
    let at = cursor.at();
    let version = cursor.byte()?;
    if !matches!(version, 1 | 3 | 4) {
        return Err(refusal(Code::BadVersion, at));
    }
    Ok(version)
}

// How many bytes stand before the first zero.
fn string_len(bytes: &[u8]) -> Option<usize>
    ensures { result ≡ position (λ b. b == 0) bytes.now }
{
    bytes.iter().position(|byte| *byte == 0)
}

#[tactic(auto, unfolding(dw_num::specs::Front::take_at))]
#[inline(always)]
fn empty_string(cursor: &mut Cursor<'_>) -> Result<(), Refusal>
    ensures { (rest : Fields TheCieFields) → Passes result (fields_at (empty_string rest) cursor.old) (λ v. fields_at rest cursor.new) }
{
    let at = cursor.at();
    if let Some(0) = cursor.rest().first() {
        let _ = cursor.take(1)?;
        return Ok(());
    }
    match string_len(cursor.rest()) {
        None => Err(refusal(Code::Truncated, at)),
        Some(_) => Err(refusal(Code::Augmentation, at)),
    }
}

// The sizes, which version 4 has.
#[inline(always)]
fn read_sizes(cursor: &mut Cursor<'_>, size: Size, version: u8) -> Result<(), Refusal>
    ensures { (rest : Fields TheCieFields) → Passes result (fields_at (sizes size version rest) cursor.old) (λ v. fields_at rest cursor.new) }
{
    if version != 4 {
        return Ok(());
    }
    want_byte(cursor, size.byte_count(), Code::AddressSize)?;
    want_byte(cursor, 0, Code::SegmentSelector)
}

#[tactic(auto, unfolding(dw_num::specs::Front::register_at))]
#[inline(always)]
fn read_register(cursor: &mut Cursor<'_>, version: u8) -> Result<u16, Refusal>
    ensures { (rest : ℕ → Fields TheCieFields) → Passes result (fields_at (return_register version rest) cursor.old) (λ r. fields_at (rest r) cursor.new) }
{
    if version == 1 {
        return Ok(u16::from(cursor.byte()?));
    }
    cursor.register()
}

#[inline(always)]
fn read_factors(cursor: &mut Cursor<'_>, version: u8) -> Result<CieFields, Refusal>
    ensures { Passes result (fields_at (factors version) cursor.old) (λ f. Ok (f, cursor.new)) }
{
    let code_factor = cursor.uleb()?;
    let data_factor = cursor.sleb()?;
    let return_register = read_register(cursor, version)?;
    Ok(CieFields {
        code_factor,
        data_factor,
        return_register,
    })
}

#[inline(always)]
pub(crate) fn read_cie(cursor: &mut Cursor<'_>, size: Size) -> Result<CieFields, Refusal>
    ensures { Passes result (fields_at (behind_id size) cursor.old) (λ f. Ok (f, cursor.new)) }
{
    let version = read_version(cursor)?;
    empty_string(cursor)?;
    read_sizes(cursor, size, version)?;
    read_factors(cursor, version)
}

/// Whether a place is among ascending places: mostly it stands where the one before was found.
#[inline(always)]
pub(crate) fn has_place(places: &[u64], place: u64, found: &mut usize) -> bool
    requires { Rises 0 places.now }
    ensures is { result ≡ is_among place places.now }
    ensures at { result ≡ true → IsAt places.now found.new place }
{
    if *found < places.len() && places[*found] == place {
        return true;
    }
    match places.binary_search(&place) {
        Ok(index) => {
            *found = index;
            true
        }
        Err(_) => false,
    }
}

/// The fields of an FDE behind the place of its CIE.
#[tactic(auto, unfolding(dw_num::specs::Front::address_at))]
#[inline(always)]
pub(crate) fn read_range(cursor: &mut Cursor<'_>, cie_at: u64) -> Result<FdeFields, Refusal>
    ensures exact { Gives (λ f. f) result (fields_at (behind_pointer cursor.old.target.size cie_at) cursor.old) cursor.new }
    ensures cie_at { IfOk result (λ f. f.cie_at ≡ cie_at) }
{
    let size = cursor.target().size;
    let begin = cursor.address()?;
    let at = cursor.at();
    let range = cursor.address()?;
    if u128::from(begin) + u128::from(range) > size.address_limit() {
        return Err(refusal(Code::RangeTooLarge, at));
    }
    Ok(FdeFields {
        cie_at,
        begin,
        range,
    })
}
