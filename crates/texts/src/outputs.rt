//! Runs of the command over outputs that fail.

use crate::runs::{PLAIN, status_of};
use std::alloc::{AllocError, Global};
use std::io::{self, ErrorKind, Write};
use std::test::Fail;

// An output that takes so many writes and so many flushes, and then fails.
#[derive(Drop)]
struct Failing {
    writes: usize,
    flushes: usize,
}

impl Write for Failing {
    fn write(&mut self, bytes: &[u8]) -> io::Result<usize> {
        if self.writes == 0 {
            return Err(io::Error::from(ErrorKind::Other));
        }
        self.writes -= 1;
        Ok(bytes.len())
    }

    fn flush(&mut self) -> io::Result<()> {
        if self.flushes == 0 {
            return Err(io::Error::from(ErrorKind::Other));
        }
        self.flushes -= 1;
        Ok(())
    }
}

// The status of a run over an output that takes so many writes and flushes, and whether it tells that it failed.
fn status_over(
    alloc: Global,
    line: &str,
    writes: usize,
    flushes: usize,
) -> Result<(u8, bool), AllocError> {
    let mut out = Failing { writes, flushes };
    let mut err: Vec<u8> = Vec::new(alloc);
    let status = status_of(alloc, line, PLAIN, &mut out, &mut err)?;
    Ok((status, err.as_slice() == b"cannot write\n".as_slice()))
}

// Fails unless each write of a run is told where it fails, and the flush.
fn failing_output_is_told(alloc: Global, line: &str) -> Result<(), Fail> {
    if status_over(alloc, line, 1000, 0)? != (4, true) {
        return Err(Fail::new(format_args!("{line}: the flush")));
    }
    for writes in 0..1000 {
        let answer = status_over(alloc, line, writes, 1)?;
        if answer == (0, false) && writes > 0 {
            return Ok(());
        }
        if answer != (4, true) {
            return Err(Fail::new(format_args!("{line}: after {writes} writes")));
        }
    }
    Err(Fail::new(format_args!("{line}: no run wrote all")))
}

#[test]
fn tells_outputs_that_fail(rt: HostRuntime) -> Result<(), Fail> {
    let lines = [
        "dwframe entries --size 8 --order little in",
        "dwframe check --size 8 --order little in",
        "dwframe rows --size 8 --order little in",
        "dwframe at --size 8 --order little in 0x401001 0x0",
        "dwframe expr --size 8 --order little 9e02aabb",
        "dwframe eval --size 8 --order little 31",
        "dwframe unwind --size 8 --order little --default same in second",
        "dwframe --help",
    ];
    for line in lines {
        failing_output_is_told(rt.alloc(), line)?;
    }
    Ok(())
}

// What is put out at once, where it and where the flush fails.
#[test]
fn tells_that_normal_forms_cannot_be_written(rt: HostRuntime) -> Result<(), Fail> {
    let lines = [
        "dwframe normal --size 8 --order little in",
        "dwframe cost --size 8 --order little in",
        "dwframe same --size 8 --order little in in",
    ];
    for line in lines {
        let answers = (
            status_over(rt.alloc(), line, 0, 1)?,
            status_over(rt.alloc(), line, 100, 0)?,
        );
        assert_eq!(rt; answers, ((4, true), (4, true)), "{line}");
    }
    Ok(())
}

#[test]
fn ignores_errors_that_cannot_be_told(rt: HostRuntime) -> Result<(), Fail> {
    let mut out: Vec<u8> = Vec::new(rt.alloc());
    let mut err = Failing {
        writes: 0,
        flushes: 0,
    };
    let line = "dwframe entries --size 8 --order little in";
    let reserved = b"\xf0\xff\xff\xff";
    let status = status_of(rt.alloc(), line, reserved, &mut out, &mut err)?;
    assert_eq!(rt; status, 2);
    Ok(())
}
