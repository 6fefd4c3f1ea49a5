//! Rows that are cloned and shown, and look-ups by an index in bytes that it is not of.

ghost use Rattle.std.specs.Prelude.{◌<◌};

use crate::sections::{LITTLE, PLAIN, changed, compare};
use dw_cfa::{Factors, LocatedRow, RowRoom, run};
use dw_num::{Program, Target};
use dw_section::{Ranged, check, look_up};
use std::alloc::Global;
use std::test::Fail;

fn program(bytes: &[u8], at: u64) -> Result<Program<'_>, Fail>
    requires { at < 256 }
{
    if bytes.len() > 1000 {
        return Err(Fail::new("a longer program than is run here"));
    }
    Ok(Program { bytes, at })
}

// A clone of a row, shown.
fn clone_text(alloc: Global, row: &LocatedRow<'_>) -> Result<String, Fail> {
    let copy = row.clone()?;
    if copy != *row {
        return Err(Fail::new("the clone differs"));
    }
    Ok(format!(in alloc; "{copy:?}")?)
}

// The same of the last row of an FDE behind the plain CIE.
fn last_cloned(alloc: Global, fde: &[u8], begin: u64, target: Target) -> Result<String, Fail> {
    if u128::from(begin) >= target.size.address_limit() {
        return Err(Fail::new("an address that the target has not"));
    }
    let factors = Factors {
        code_factor: 1,
        data_factor: -8,
    };
    let cie = program(b"\x0c\x07\x08\x90\x01", 0xf)?;
    let rows = run(alloc, cie, program(fde, 0x30)?, begin, factors, target)?;
    match rows.last() {
        Some(row) => clone_text(alloc, row),
        None => Err(Fail::new("no row")),
    }
}

// The plain section, then a CIE without rules, and an FDE of it of three rows from 0x1000 to 0x1010.
const TWO: &[u8] = b"\x14\0\0\0\xff\xff\xff\xff\x04\0\x08\0\x01\x78\x10\x0c\x07\x08\x90\x01\0\0\0\0\
\x24\0\0\0\0\0\0\0\0\x10\x40\0\0\0\0\0\x10\0\0\0\0\0\0\0\x41\x0e\x10\x86\x02\x43\x0d\x06\x4b\x0c\x07\x08\0\0\0\0\
\x0c\0\0\0\xff\xff\xff\xff\x04\0\x08\0\x01\x7f\x10\0\
\x24\0\0\0\x40\0\0\0\0\x10\0\0\0\0\0\0\x10\0\0\0\0\0\0\0\x0c\x07\x08\x90\x08\x44\x0a\x0e\x10\x86\x10\x48\x0b\0\0\0";

// What a look-up finds by an index, in room that is lent.
fn found<'a>(
    alloc: Global,
    bytes: &'a [u8],
    index: &[Ranged],
    address: u64,
    room: &mut RowRoom<'a>,
) -> Result<String, Fail> {
    match look_up(bytes, LITTLE, index, address, room) {
        Ok(Some(fde)) => Ok(format!(in alloc; "{:#x} {:?}", fde.begin, room.row())?),
        Ok(None) => Ok(String::from_str(alloc, "none")?),
        Err(error) => Ok(format!(in alloc; "{error:?}")?),
    }
}

fn agree(
    alloc: Global,
    bytes: &[u8],
    index: &[Ranged],
    address: u64,
    wanted: &str,
) -> Result<(), Fail> {
    let text = found(alloc, bytes, index, address, &mut RowRoom::new(alloc))?;
    compare("a look-up", text.as_str(), wanted)
}

const THIRD: &str =
    "0x401000 Row { cfa: Register { register: 6, offset: 16 }, registers: { 6: Offset(-16), 16: Offset(-8), } }";

const FIRST: &str =
    "0x401000 Row { cfa: Register { register: 7, offset: 8 }, registers: { 16: Offset(-8), } }";

const OTHER: &str =
    "0x1000 Row { cfa: Register { register: 7, offset: 8 }, registers: { 16: Offset(-8), } }";

// In its own section, and in one that ends before the FDE's place.
const LOOK_UPS: &[(&[u8], u64, &str)] = &[
    (TWO, 0x401004, THIRD),
    (TWO, 0x401000, FIRST),
    (TWO, 0x1003, OTHER),
    (TWO, 0x100f, OTHER),
    (TWO, 0xfff, "none"),
    (TWO, 0x401010, "none"),
    (PLAIN, 0x401000, FIRST),
    (PLAIN, 0x1003, "BadIndex"),
];

// The section with one byte changed, at a place: another FDE stands there, or what stands there is refused.
const CHANGED: &[(usize, u8, &str)] = &[
    (0x21, 0x20, "BadIndex"),
    (
        0x30,
        0x2e,
        "Refused(Refusal { code: UnknownInstruction, at: 48 })",
    ),
];

fn changed_is(
    alloc: Global,
    index: &[Ranged],
    at: usize,
    byte: u8,
    wanted: &str,
) -> Result<(), Fail> {
    agree(
        alloc,
        &changed(alloc, TWO, at, byte)?,
        index,
        0x401004,
        wanted,
    )
}

fn all_agree(alloc: Global, index: &[Ranged]) -> Result<(), Fail> {
    for (bytes, address, wanted) in LOOK_UPS {
        agree(alloc, *bytes, index, *address, *wanted)?;
    }
    for (at, byte, wanted) in CHANGED {
        changed_is(alloc, index, *at, *byte, *wanted)?;
    }
    Ok(())
}

#[test]
fn clones_and_looks_up(rt: HostRuntime) -> Result<(), Fail> {
    let shown = last_cloned(rt.alloc(), b"\x41\x0e\x10", 0x1000, LITTLE)?;
    let wanted =
        "LocatedRow { location: 4097, row: Row { cfa: Register { register: 7, offset: 16 }, registers: { 16: Offset(-8), } } }";
    compare("a clone", shown.as_str(), wanted)?;
    let table = check(rt.alloc(), TWO, LITTLE)?;
    all_agree(rt.alloc(), table.index())
}
