//! The calls on normal forms.

use super::answers::{changed, say, told};
use dw_normal::{Tape, WriteError, normalise, normalise_to};
use dw_num::Target;

// The most bytes of a normal form.
const CAP: u64 = 2_147_483_647;

pub fn normalised(rt: &HostRuntime, bytes: &[u8], target: Target) {
    told(rt, normalise(rt.alloc(), bytes, target, CAP));
}

// How many bytes a call says that it wrote.
fn count_of(answer: Result<u64, WriteError>) -> u64 {
    match answer {
        Ok(written) => written,
        Err(WriteError::Write { written } | WriteError::Memory { written }) => written,
        Err(WriteError::Refused(_)) => 0,
    }
}

fn print_written(rt: &HostRuntime, answer: Result<u64, WriteError>, taken: &[u8]) {
    if taken.len() as u64 != count_of(answer) {
        changed(rt);
    }
    if told(rt, answer) {
        say(rt, &taken);
    }
}

pub fn written(rt: &HostRuntime, bytes: &[u8], target: Target) {
    let mut tape = Tape::new(rt.alloc());
    let answer = normalise_to(rt.alloc(), bytes, target, CAP, &mut tape);
    print_written(rt, answer, &tape.into_bytes());
}
