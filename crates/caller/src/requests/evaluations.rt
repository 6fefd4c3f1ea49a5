//! The calls on dumps and over them: what is read of a dump, and what expressions and location descriptions say.

ghost use Rattle.std.specs.Prelude.{◌≡◌};

use super::answers::{say, taken, told};
use crate::cfa::TARGET;
use dw_eval::{Env, Memory, evaluate, locate};
use dw_num::Order;
use dw_op::{OpList, Profile, decode};
use dw_unwind::{Dump, DumpMemory};

// With ranges in order, with ranges that have to be sorted, and with a byte that is given twice.
const DUMPS: &[&[u8]] = &[
    b"",
    b"pc 0x401004\nr6 0x7ffe00\nr7 0x7ffdf0\nmem 0x7ffe00 00020000000000008812400000000000",
    b"pc 0x1000\nr3 0x33\nr7 0x2000\nr300 0x1",
    b"r7 0x1000\nmem 0x1010 01\nmem 0x1008 2a00000000000000\nmem 0x1000 00\nmem 0x1011 02",
    b"mem 0x1010 01\nmem 0x1000 00\nmem 0x1008 2a00000000000000\nmem 0x100f 02\nmem 0x1011 02",
];

// The dump that expressions are evaluated over.
const OVER: &[&[u8]] = &[b"r7 0x1000\nmem 0x1008 2a00000000000000"];

// A read of memory, a countdown, and a loop that pushes until its steps are taken.
const EXPRESSIONS: &[&[u8]] = &[
    b"\x77\x08\x06",
    b"\x3a\x31\x1c\x12\x28\xfa\xff",
    b"\x30\x2f\xfc\xff",
];

const LOCATIONS: &[&[u8]] = &[
    b"\x53\x93\x08\x77\x08\x93\x04",
    b"\x9e\x02\xaa\xbb\x93\x02",
    b"\x31\x9f",
    b"",
];

const STEPS: u64 = 100;

fn read(rt: &HostRuntime, memory: &mut DumpMemory) {
    told(rt, memory.read(0x1008, 8, Order::Little));
}

fn print_parts(rt: &HostRuntime, dump: &mut Dump) {
    let (seven, far) = (dump.registers.get(7), dump.registers.get(300));
    say(rt, &(dump.pc, seven, far));
    read(rt, &mut dump.memory);
}

fn print_answer(
    rt: &HostRuntime,
    call: &str,
    list: &OpList<'_>,
    env: &Env<'_>,
    memory: &mut DumpMemory,
)
    requires { list.now.target ≡ env.now.target }
{
    if call == "evaluate" {
        told(rt, evaluate(rt.alloc(), list, Some(1), env, memory, STEPS));
    } else {
        told(rt, locate(rt.alloc(), list, env, memory, STEPS));
    }
}

// Evaluates or locates, without a frame base, a CFA or an object, and reads behind it.
fn evaluated(rt: &HostRuntime, call: &str, dump: &mut Dump, list: &OpList<'_>) {
    let env = Env {
        target: list.target(),
        registers: &dump.registers,
        frame_base: None,
        cfa: None,
        object: None,
    };
    print_answer(rt, call, list, &env, &mut dump.memory);
    read(rt, &mut dump.memory);
}

fn on_block(rt: &HostRuntime, call: &str, dump: &mut Dump, block: &[u8]) {
    if let Some(list) = taken(rt, decode(rt.alloc(), block, TARGET, Profile::Location)) {
        evaluated(rt, call, dump, &list);
    }
}

fn each(rt: &HostRuntime, call: &str, dump: &mut Dump, blocks: &[&[u8]]) {
    for block in blocks {
        on_block(rt, call, dump, block);
    }
}

fn on_dump(rt: &HostRuntime, call: &str, dump: &mut Dump) {
    match call {
        "dumps" => print_parts(rt, dump),
        "evaluate" => each(rt, call, dump, EXPRESSIONS),
        _ => each(rt, call, dump, LOCATIONS),
    }
}

fn on_text(rt: &HostRuntime, call: &str, text: &[u8]) {
    if let Some(mut dump) = taken(rt, Dump::parse(rt.alloc(), text, TARGET)) {
        on_dump(rt, call, &mut dump);
    }
}

/// A call by its name, on each dump or over one.
pub fn all(rt: &HostRuntime, call: &str) {
    let texts = if call == "dumps" { DUMPS } else { OVER };
    for text in texts {
        on_text(rt, call, text);
    }
}
