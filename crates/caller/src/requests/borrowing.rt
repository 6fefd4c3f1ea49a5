//! The calls on borrowed expressions that take no memory.

use super::answers::{say, taken};
use crate::cfa::TARGET;
use dw_num::{Order, Size, Target};
use dw_op::ExprRef;
use std::hash::{DefaultHasher, Hash, Hasher};

const BLOCKS: &[&[u8]] = &[
    b"\x2f\x12\x00\x0e\x05\0\0\0\0\0\0\0\x0e\x06\0\0\0\0\0\0\0\x37",
    b"\x2f\x02\x00\x35\x36\x37",
    b"\x92\x07\x08\x06",
    b"\x77\x08\x06",
    b"\x12",
    b"\x2f\x01\x00\x08\x05",
    b"\x9f",
];

// Targets of another byte order, and of another size.
const OTHERS: &[Target] = &[
    Target {
        size: Size::Eight,
        order: Order::Big,
    },
    Target {
        size: Size::Four,
        order: Order::Little,
    },
];

fn hash_of(expression: &ExprRef<'_>) -> u64 {
    let mut state = DefaultHasher::new();
    expression.hash(&mut state);
    state.finish()
}

fn print_pair(rt: &HostRuntime, first: &ExprRef<'_>, second: &ExprRef<'_>) {
    let equal = *first == *second;
    let alike = hash_of(first) == hash_of(second);
    say(rt, &(equal, alike, first.least_len(), second.least_len()));
}

fn beside(rt: &HostRuntime, first: &ExprRef<'_>, block: &[u8], target: Target) {
    if let Some(second) = taken(rt, ExprRef::accept(block, target)) {
        print_pair(rt, first, &second);
    }
}

fn beside_each(rt: &HostRuntime, first: &ExprRef<'_>) {
    for block in BLOCKS {
        beside(rt, first, block, TARGET);
    }
}

fn on_block(rt: &HostRuntime, block: &[u8]) {
    if let Some(first) = taken(rt, ExprRef::accept(block, TARGET)) {
        beside_each(rt, &first);
    }
}

// Equal bytes of two targets, whose operands are of one byte each.
fn on_others(rt: &HostRuntime, block: &[u8]) {
    if let Some(first) = taken(rt, ExprRef::accept(block, TARGET)) {
        for target in OTHERS {
            beside(rt, &first, block, *target);
        }
    }
}

/// Accepts each block, and compares and hashes it and each other, and itself for other targets.
pub fn all(rt: &HostRuntime) {
    for block in BLOCKS {
        on_block(rt, block);
    }
    on_others(rt, b"\x77\x08\x06");
}
