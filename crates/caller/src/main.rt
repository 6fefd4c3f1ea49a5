//! A caller of the library, which is no part of the product:
//!
//!     caller SECTION DUMP
//!     caller request CALL
//!     caller request CALL 4|8 little|big FILE
//!
//! The first finds the canonical frame address (CFA) of a machine that stopped: `cfa.rt`, which `docs/CALLING.md` goes through. The
//! others make one call, for `checks/refused_memory.py`: `requests/`.
#![tactic(auto)]

mod cfa;
mod promised;
mod requests;

use std::{env, io};

fn asked(rt: &HostRuntime, words: &[String]) -> io::Result<()> {
    match words {
        [_, first, call @ ..] if first.as_str() == "request" => requests::asked(rt, call),
        [_, section, dump] => cfa::of_files(rt, section, dump),
        _ => println!(rt; "usage: caller SECTION DUMP"),
    }
}

fn main(rt: HostRuntime) -> io::Result<()> {
    let words: Vec<String> = env::args(&rt)?.collect(rt.alloc())?;
    asked(&rt, &words)
}
