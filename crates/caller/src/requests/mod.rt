//! Makes one call over worked data, or over the section in a file, and prints what it answers: the runs that
//! `checks/refused_memory.py` makes with each of their requests for memory refused in turn. Calls that the command makes alike are
//! told by runs of that. An error is printed as any other answer.

mod answers;
mod borrowing;
mod evaluations;
mod expressions;
mod forms;
mod frames;
mod numbers;
mod programs;
mod sections;
mod states;

use crate::cfa::TARGET;
use dw_num::{Order, Size, Target};
use std::{fs, io};

fn target_of(size: &str, order: &str) -> Target {
    Target {
        size: if size == "4" { Size::Four } else { Size::Eight },
        order: if order == "big" {
            Order::Big
        } else {
            Order::Little
        },
    }
}

fn made(rt: &HostRuntime, call: &str, bytes: &[u8], target: Target) {
    match call {
        "none" => {}
        "numbers" => numbers::all(rt),
        "registers" => numbers::registers(rt),
        "states" => states::all(rt),
        "dumps" | "evaluate" | "locate" => evaluations::all(rt, call),
        "headers" => sections::all_headers(rt, bytes, target),
        "row_at" | "changes" | "index" | "frames" => sections::over_table(rt, call, bytes, target),
        "normalise" => forms::normalised(rt, bytes, target),
        "normalise_to" => forms::written(rt, bytes, target),
        "borrowed" => borrowing::all(rt),
        _ => programs::over_section(rt, call, bytes, target),
    }
}

fn over_file(rt: &HostRuntime, call: &str, path: &str, target: Target) -> io::Result<()> {
    let bytes = fs::read(rt, path)?;
    made(rt, call, &bytes, target);
    Ok(())
}

/// Makes the call that the words name.
pub fn asked(rt: &HostRuntime, words: &[String]) -> io::Result<()> {
    match words {
        [call, size, order, path] => over_file(rt, call, path, target_of(size, order)),
        [call, ..] => {
            made(rt, call, programs::WORKED, TARGET);
            Ok(())
        }
        _ => Ok(()),
    }
}
