//! Frames by an index, each in the same rooms.

use super::answers::{say, taken};
use dw_cfa::RowRoom;
use dw_eval::Policy;
use dw_num::Target;
use dw_section::Ranged;
use dw_unwind::{Dump, FrameRoom, unwind_at};
use std::alloc::Global;

// The registers are in the middle of the memory.
const STOPPED: &[u8] =
    b"r6 0x1000\nr7 0x1000\nmem 0xff0 0000000000000000000000000000000000000000000000000000000000000000";

// How many registers the frame at an address has.
fn registers_at<'a>(
    alloc: Global,
    bytes: &'a [u8],
    target: Target,
    index: &[Ranged],
    pc: u64,
    rows: &mut RowRoom<'a>,
    room: &mut FrameRoom,
    dump: &mut Dump,
) -> usize {
    match unwind_at(
        alloc,
        bytes,
        target,
        index,
        pc,
        rows,
        room,
        &dump.registers,
        &mut dump.memory,
        Policy::SameValue,
        100,
    ) {
        Ok(frame) => frame.registers.values().len(),
        Err(_) => 0,
    }
}

// The last address of each FDE, and how many registers the frame there has.
fn print_frames<'a>(
    rt: &HostRuntime,
    bytes: &'a [u8],
    target: Target,
    index: &[Ranged],
    rows: &mut RowRoom<'a>,
    room: &mut FrameRoom,
    dump: &mut Dump,
) {
    for fde in index {
        let last = fde.begin.saturating_add(fde.range).saturating_sub(1);
        let count = registers_at(rt.alloc(), bytes, target, index, last, rows, room, dump);
        say(rt, &(last, count));
    }
}

// The same in rooms of its own.
fn frames_of(rt: &HostRuntime, bytes: &[u8], target: Target, index: &[Ranged], dump: &mut Dump) {
    let (mut rows, mut room) = (RowRoom::new(rt.alloc()), FrameRoom::new(rt.alloc()));
    print_frames(rt, bytes, target, index, &mut rows, &mut room, dump);
    drop(rows);
    drop(room);
}

/// Makes a dump, and by it and the index of a section the frames, where they are wanted.
pub fn by_index(
    rt: &HostRuntime,
    bytes: &[u8],
    target: Target,
    index: &[Ranged],
    are_wanted: bool,
) {
    if let Some(mut dump) = taken(rt, Dump::parse(rt.alloc(), STOPPED, target)) {
        if are_wanted {
            frames_of(rt, bytes, target, index, &mut dump);
        }
    }
}
