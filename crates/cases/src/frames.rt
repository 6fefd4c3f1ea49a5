//! Frames over a memory whose device fails, by a table and by its index: what is told of the fault.

ghost use Rattle.std.specs.Prelude.{◌<◌, ◌-◌, ◌^◌};

use crate::memory::Failing;
use crate::sections::{LITTLE, PLAIN, compare};
use dw_cfa::RowRoom;
use dw_eval::{Policy, Registers};
use dw_section::{Ranged, Table, check};
use dw_unwind::{Dump, Frame, FrameRoom, unwind, unwind_at};
use std::alloc::Global;
use std::fmt::Debug;
use std::test::Fail;

// r6 is held in r3, the values of r3 and r5 are told, and r16 is undefined.
const RULES: &[u8] =
    b"\x14\0\0\0\xff\xff\xff\xff\x04\0\x08\0\x01\x78\x10\x0c\x07\x08\x90\x01\0\0\0\0\
\x24\0\0\0\0\0\0\0\0\x10\0\0\0\0\0\0\x10\0\0\0\0\0\0\0\x09\x06\x03\x14\x03\x01\x16\x05\x02\x23\x01\x07\x10\0\0\0";

// The expressions of the CFA and of r5 read memory.
const READING: &[u8] =
    b"\x14\0\0\0\xff\xff\xff\xff\x04\0\x08\0\x01\x78\x10\x0c\x07\x08\x90\x01\0\0\0\0\
\x24\0\0\0\0\0\0\0\0\x10\0\0\0\0\0\0\x10\0\0\0\0\0\0\0\x0f\x03\x77\x08\x06\x10\x05\x03\x77\0\x06\0\0\0\0\0";

const DUMP: &str =
    "pc 0x401004\nr6 0x7ffe00\nr7 0x7ffdf0\nmem 0x7ffe00 00020000000000008812400000000000";

const SHORT: &str =
    "pc 0x401004\nr6 0x7ffe00\nr7 0x7ffdf0\nmem 0x7ffe00 000200000000000088124000000000";

const READ: &str = "pc 0x1000\nr7 0x2000\nmem 0x2000 08200000000000001020000000000000";

/// A section, a dump, the read of memory that fails, where one does, and the frame or the fault.
type Row<'a> = (&'a [u8], &'a str, u64, &'a str);

const FRAMES: [Row<'static>; 11] = [
    (
        PLAIN,
        SHORT,
        0,
        "Unreadable { column: Register(16), address: 8388104, len: 8 }",
    ),
    (
        RULES,
        "pc 0x1000\nr7 0x2000",
        0,
        "NoRegister { column: Register(6), register: 3 }",
    ),
    (
        PLAIN,
        "pc 0x401000",
        0,
        "NoRegister { column: Cfa, register: 7 }",
    ),
    (PLAIN, DUMP, 1, "Device { column: Register(6) }"),
    (PLAIN, DUMP, 2, "Device { column: Register(16) }"),
    (
        PLAIN,
        DUMP,
        3,
        "cfa 0x7ffe10 ra r16 [(6, Some(512)), (7, Some(8388080)), (16, Some(4199048))]",
    ),
    (
        READING,
        READ,
        1,
        "Eval { kind: Device, index: 1, column: Cfa }",
    ),
    (
        READING,
        READ,
        2,
        "Eval { kind: Device, index: 1, column: Register(5) }",
    ),
    (READING, READ, 3, "Device { column: Register(5) }"),
    (READING, READ, 4, "Device { column: Register(16) }"),
    (
        READING,
        READ,
        5,
        "cfa 0x2010 ra r16 [(5, Some(8208)), (7, Some(8192)), (16, Some(8208))]",
    ),
];

// As `cfa 0x2008 ra r16 [(3, Some(8192)), (5, None)]`, or the fault.
fn told<E: Debug + Drop>(alloc: Global, answer: Result<Frame<'_>, E>) -> Result<String, Fail> {
    match answer {
        Ok(frame) => {
            let values = frame.registers.values();
            Ok(format!(in alloc;
                "cfa {:#x} ra r{} {values:?}",
                frame.cfa, frame.return_register
            )?)
        }
        Err(error) => Ok(format!(in alloc; "{error:?}")?),
    }
}

// The frame by a table.
fn by_table(
    alloc: Global,
    table: &Table<'_>,
    pc: u64,
    room: &mut FrameRoom,
    registers: &Registers,
    memory: &mut Failing,
) -> Result<String, Fail>
    requires { memory.old.failures < 2 ^ 64 - 1 }
{
    let (target, default) = (table.target(), Policy::SameValue);
    let answer = unwind(
        alloc, table, target, pc, room, registers, memory, default, 1_000,
    );
    told(alloc, answer)
}

// The same by an index of a section, in room for rows that is lent.
fn by_index<'a>(
    alloc: Global,
    bytes: &'a [u8],
    index: &[Ranged],
    pc: u64,
    rows: &mut RowRoom<'a>,
    room: &mut FrameRoom,
    registers: &Registers,
    memory: &mut Failing,
) -> Result<String, Fail>
    requires { memory.old.failures < 2 ^ 64 - 1 }
{
    let default = Policy::SameValue;
    let answer = unwind_at(
        alloc, bytes, LITTLE, index, pc, rows, room, registers, memory, default, 1_000,
    );
    told(alloc, answer)
}

// By a table and then by its index. An index has one more error, that it is not the one of these bytes.
fn by_both(
    alloc: Global,
    table: &Table<'_>,
    row: Row<'_>,
    pc: u64,
    room: &mut FrameRoom,
    registers: &Registers,
    memory: &mut Failing,
) -> Result<(), Fail>
    requires { memory.old.failures < 2 ^ 64 - 1 }
{
    let (bytes, dump, _, wanted) = row;
    let text = by_table(alloc, table, pc, room, registers, memory)?;
    compare(dump, text.as_str(), wanted)?;
    memory.reads = 0;
    memory.failures = 0;
    let (index, rows) = (table.index(), &mut RowRoom::new(alloc));
    let text = by_index(alloc, bytes, index, pc, rows, room, registers, memory)?;
    let within = text
        .strip_prefix("Unwind(")
        .and_then(|it| it.strip_suffix(")"));
    compare(dump, within.unwrap_or(&text), wanted)
}

// By both, over the dump.
fn over_dump(
    alloc: Global,
    table: &Table<'_>,
    room: &mut FrameRoom,
    row: Row<'_>,
) -> Result<(), Fail> {
    let dump = Dump::parse(alloc, row.1.as_bytes(), LITTLE)?;
    let pc = dump.pc.ok_or("no program counter")?;
    let mut memory = Failing {
        memory: dump.memory,
        failing: row.2,
        reads: 0,
        failures: 0,
    };
    by_both(alloc, table, row, pc, room, &dump.registers, &mut memory)
}

fn agree(alloc: Global, room: &mut FrameRoom, row: Row<'_>) -> Result<(), Fail> {
    over_dump(alloc, &check(alloc, row.0, LITTLE)?, room, row)
}

fn all_agree(alloc: Global, room: &mut FrameRoom) -> Result<(), Fail> {
    for row in FRAMES {
        agree(alloc, room, row)?;
    }
    Ok(())
}

#[test]
fn tells_what_fails(rt: HostRuntime) -> Result<(), Fail> {
    all_agree(rt.alloc(), &mut FrameRoom::new(rt.alloc()))
}
