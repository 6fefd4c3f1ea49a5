//! How answers are told. Each is printed by the same two functions, for a place that prints is costly to prove.
//! A write that fails is not told: the whole output is compared.

use std::fmt::Debug;

/// Prints a value.
pub fn say<T: Debug>(rt: &HostRuntime, value: &T) {
    let _ = println!(rt; "{value:?}");
}

/// Prints an answer, and tells whether it is no error.
pub fn told<T: Debug + Drop, E: Debug + Drop>(rt: &HostRuntime, answer: Result<T, E>) -> bool {
    say(rt, &answer);
    answer.is_ok()
}

/// What is answered. An error is printed.
pub fn taken<T: Drop, E: Debug + Drop>(rt: &HostRuntime, answer: Result<T, E>) -> Option<T> {
    match answer {
        Ok(value) => Some(value),
        Err(error) => {
            say(rt, &error);
            None
        }
    }
}

/// An error has to be answered from then on.
pub fn behind<T: Drop, E: Drop>(rt: &HostRuntime, answer: Result<T, E>) {
    if answer.is_ok() {
        say(rt, &"an answer behind an error");
    }
}

/// What a refused call was lent has to be as it was.
pub fn changed(rt: &HostRuntime) {
    say(rt, &"changed");
}
