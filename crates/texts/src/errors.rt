//! Want of memory for a file, hints, and errors that are told.

use crate::runs::{Files, PLAIN, status_of};
use dw_command::{Failure, Hinted, Load, LoadError};
use dw_eval::Kind;
use dw_unwind::{Column, UnwindError};
use std::alloc::{AllocError, Global};
use std::test::Fail;

// Runs that read a file for which there is no memory.
const HUGE: [&str; 6] = [
    "dwframe entries huge --order big --size=8",
    "dwframe check --order big huge --size=8",
    "dwframe rows huge --order big --size=8",
    "dwframe at --size 8 --order little huge",
    "dwframe eval --size 8 --order little 31 huge",
    "dwframe unwind --size 8 --order little --default same in huge",
];

// Whether a run answers that memory lacks.
fn lacks_memory(alloc: Global, line: &str) -> Result<bool, AllocError> {
    let mut out: Vec<u8> = Vec::new(alloc);
    let mut err: Vec<u8> = Vec::new(alloc);
    let status = status_of(alloc, line, PLAIN, &mut out, &mut err)?;
    let is_told = err.as_slice() == b"out of memory\n".as_slice();
    Ok(status == 5 && out.is_empty() && is_told)
}

#[test]
fn tells_that_memory_lacks(rt: HostRuntime) -> Result<(), Fail> {
    for line in &HUGE {
        assert!(rt; lacks_memory(rt.alloc(), line)?, "{line}");
    }
    Ok(())
}

// The hint that a file gets.
fn hint_is(alloc: Global, section: &[u8], wanted: &str) -> Result<bool, LoadError> {
    let mut err: Vec<u8> = Vec::new(alloc);
    let files = Files { section, alloc };
    let loaded = Hinted::new(files, &mut err).load("in")?;
    Ok(loaded.as_slice() == section && err.as_slice() == wanted.as_bytes())
}

#[test]
fn hints_at_files_that_are_no_section(rt: HostRuntime) -> Result<(), Fail> {
    let rows = [
        (PLAIN, ""),
        (
            b"".as_slice(),
            "hint: in is empty, as objcopy leaves it where there is no .debug_frame\n",
        ),
        (
            b"\x7fELF\x02\x01".as_slice(),
            "hint: in begins as an ELF file does; a raw section is wanted, see dwframe --help\n",
        ),
        (
            b"\x1f\x8b\x08".as_slice(),
            "hint: in begins as a gzip file does; a raw section is wanted, see dwframe --help\n",
        ),
    ];
    for (bytes, wanted) in rows {
        let Ok(is) = hint_is(rt.alloc(), bytes, wanted) else {
            return Err(Fail::new(format_args!("no file")));
        };
        assert!(rt; is, "{wanted}");
    }
    Ok(())
}

#[test]
fn says_what_failed(rt: HostRuntime) -> Result<(), Fail> {
    let alloc = rt.alloc();
    let input = format!(in alloc; "{}", LoadError::CannotRead)?;
    assert_eq!(rt; input.as_str(), "the file cannot be read");
    let memory = format!(in alloc; "{}", LoadError::OutOfMemory)?;
    assert_eq!(rt; memory.as_str(), "out of memory");
    Ok(())
}

// The memory of a dump has no device that fails.
#[test]
fn names_a_failing_device(rt: HostRuntime) -> Result<(), Fail> {
    let column = Column::Register(6);
    let failure = Failure::from(UnwindError::Device { column });
    let text = format!(in rt.alloc(); "{failure}")?;
    assert_eq!(rt; text.as_str(), "fault: Device in r6");
    let failure = Failure::from(UnwindError::Eval {
        kind: Kind::Device,
        index: 1,
        column: Column::Cfa,
    });
    let text = format!(in rt.alloc(); "{failure}")?;
    assert_eq!(rt; text.as_str(), "fault: Device at 1 in cfa");
    Ok(())
}
