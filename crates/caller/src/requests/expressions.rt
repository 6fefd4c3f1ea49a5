//! The calls on expressions.

use super::answers::{say, taken, told};
use super::numbers::{Appended, append};
use dw_num::Target;
use dw_op::{ExprRef, OpList, Profile, decode, encode};

fn decoded(rt: &HostRuntime, block: &[u8], target: Target) {
    if let Some(list) = taken(rt, decode(rt.alloc(), block, target, Profile::Frame)) {
        say(rt, &list.ops());
    }
}

fn on_list(rt: &HostRuntime, call: &str, list: &OpList<'_>) {
    match call {
        "ops" => say(rt, &list.ops()),
        "encode" => {
            told(rt, encode(rt.alloc(), list));
        }
        _ => {
            if let Some(block) = taken(rt, encode(rt.alloc(), list)) {
                decoded(rt, &block, list.target());
            }
        }
    }
}

/// A call by its name. `decode` is of the least block.
pub fn on_expression(rt: &HostRuntime, call: &str, expression: &ExprRef<'_>) {
    if call == "put_least" {
        append(rt, Appended::Least(expression));
    } else if let Some(list) = taken(rt, expression.ops(rt.alloc())) {
        on_list(rt, call, &list);
    }
}
