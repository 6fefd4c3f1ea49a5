//! Places that location descriptions describe, values that no command asks for, and reads that fail.

ghost use Rattle.std.specs.Prelude.{◌<◌, ◌-◌, ◌^◌};

use crate::memory::Failing;
use crate::sections::{BIG, LITTLE, compare};
use dw_eval::{Env, EvalError, Registers, evaluate, locate};
use dw_num::Target;
use dw_op::{Profile, decode};
use dw_unwind::Dump;
use std::alloc::Global;
use std::test::Fail;

// What a block is evaluated over.
const DUMP: &[u8] = b"r7 0x1000\nmem 0x1 2a\nmem 0x2a 2a2a\nmem 0x1008 2a2a2a2a2a2a2a2a";

// Blocks with what they stand in, and their values: bases, a start that size 4 narrows, and reads that fail.
const VALUES: &str = "\
9178 base=4096: 0xff8
 big=4 start=4294967301: 0x5
9c cfa=8192: 0x2000
97 object=12288: 0x3000
770806 fails=1: Device at 1; 1 failed
770806 fails=2: 0x2a2a2a2a2a2a2a2a; 0 failed
770894019402 fails=2: Device at 2; 1 failed
770894019402 fails=3: 0x2a2a; 0 failed
09ff9402 fails=2: Unreadable at 1; 0 failed";

// The pieces that a description describes, or its fault.
const LOCATIONS: &str = "\
53930891789304 base=4096: [Piece { place: Register(3), part: Bytes(8) }, Piece { place: Memory(4088), part: Bytes(4) }]
319f base=4096: [Piece { place: Value(1), part: Whole }]
 base=4096: [Piece { place: Empty, part: Whole }]
3830531b base=4096: MissingPiece at 3
9e02aabb9302: [Piece { place: Bytes([170, 187]), part: Bytes(2) }]
9303: [Piece { place: Empty, part: Bytes(3) }]
319f9d0402: [Piece { place: Value(1), part: Bits { size: 4, offset: 2 } }]
30319302: [Piece { place: Memory(1), part: Bytes(2) }]
5096: [Piece { place: Register(0), part: Whole }]
2f01005053: [Piece { place: Register(3), part: Whole }]
9c9f cfa=8192: [Piece { place: Value(8192), part: Whole }]
9c9f: NoCfa at 0
5053: MissingPiece at 1
5013: StackUnderflow at 1
31930212: StackUnderflow at 2
5006: StackUnderflow at 1
930350: MissingPiece at 2
930331: MissingPiece at 2
3106: Unreadable at 1
2ffdff: StepLimit at 0
3106 fails=1: Device at 1; 1 failed
3194019402 fails=2: Device at 2; 1 failed
3194019402 fails=3: [Piece { place: Memory(10794), part: Whole }]; 0 failed";

// What a block stands in.
#[derive(Clone, Copy)]
struct Around {
    target: Target,
    start: Option<u64>,
    frame_base: Option<u64>,
    cfa: Option<u64>,
    object: Option<u64>,
    failing: u64,
}

const ALONE: Around = Around {
    target: LITTLE,
    start: None,
    frame_base: None,
    cfa: None,
    object: None,
    failing: 0,
};

impl Around {
    // Takes a word, such as `base=4096`.
    fn take(&mut self, word: &str) -> Result<(), Fail> {
        let (name, number) = word.split_once('=').ok_or("a word")?;
        let number: u64 = number.parse()?;
        match name {
            "big" => self.target = BIG,
            "start" => self.start = Some(number),
            "base" => self.frame_base = Some(number),
            "cfa" => self.cfa = Some(number),
            "object" => self.object = Some(number),
            "fails" => self.failing = number,
            _ => return Err(Fail::new("an unknown word")),
        }
        Ok(())
    }
}

fn error_text(alloc: Global, error: EvalError) -> Result<String, Fail> {
    match error {
        EvalError::Fault { kind, index } => Ok(format!(in alloc; "{} at {index}", kind.name())?),
        EvalError::OutOfMemory => Err(Fail::new("out of memory")),
    }
}

// The value of a block, or what it describes.
fn answer(
    alloc: Global,
    block: &[u8],
    is_value: bool,
    around: Around,
    registers: &Registers,
    memory: &mut Failing,
) -> Result<String, Fail>
    requires { memory.old.failures < 2 ^ 64 - 1 }
{
    let list = decode(alloc, block, around.target, Profile::Location)?;
    let env = Env {
        target: around.target,
        registers,
        frame_base: around.frame_base,
        cfa: around.cfa,
        object: around.object,
    };
    if is_value {
        return match evaluate(alloc, &list, around.start, &env, memory, 9) {
            Ok(value) => Ok(format!(in alloc; "{value:#x}")?),
            Err(error) => error_text(alloc, error),
        };
    }
    match locate(alloc, &list, &env, memory, 9) {
        Ok(pieces) => Ok(format!(in alloc; "{pieces:?}")?),
        Err(error) => error_text(alloc, error),
    }
}

// The same over the dump, and how many reads have failed where one is to fail.
fn over_dump(alloc: Global, block: &[u8], is_value: bool, around: Around) -> Result<String, Fail> {
    let dump = Dump::parse(alloc, DUMP, around.target)?;
    let mut memory = Failing {
        memory: dump.memory,
        failing: around.failing,
        reads: 0,
        failures: 0,
    };
    let text = answer(alloc, block, is_value, around, &dump.registers, &mut memory)?;
    if around.failing == 0 {
        return Ok(text);
    }
    Ok(format!(in alloc; "{text}; {} failed", memory.failures)?)
}

// Fails where a call answers otherwise than a line says.
fn agree(alloc: Global, line: &str, is_value: bool) -> Result<(), Fail> {
    let (asked, wanted) = line.split_once(": ").ok_or("a case without an answer")?;
    let (block, words) = asked.split_once(' ').unwrap_or((asked, ""));
    let mut around = ALONE;
    for word in words.split_whitespace() {
        around.take(word)?;
    }
    let block = hex::decode(alloc, block)?;
    let text = over_dump(alloc, &block, is_value, around)?;
    compare(line, text.as_str(), wanted)
}

#[test]
fn values_and_locations(rt: HostRuntime) -> Result<(), Fail> {
    for line in VALUES.lines() {
        agree(rt.alloc(), line, true)?;
    }
    for line in LOCATIONS.lines() {
        agree(rt.alloc(), line, false)?;
    }
    Ok(())
}
