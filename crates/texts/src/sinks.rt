//! The plain section's normal form: into sinks that fail, on a tape, and of each section that has another byte; a long one; and what
//! errors say.

use crate::runs::PLAIN;
use dw_normal::{
    SameError, SinkFault, Tape, Through, Which, WriteError, normalise, normalise_to, same,
};
use dw_num::{Code, Order, ReadError, Refusal, Size, Target};
use std::alloc::{AllocError, Global};
use std::fmt::Display;
use std::io::{self, ErrorKind, Write};
use std::test::Fail;

const LITTLE: Target = Target {
    size: Size::Eight,
    order: Order::Little,
};

// Its data factor is -1.
const NORMAL: &[u8] =
    b"\x14\0\0\0\xff\xff\xff\xff\x04\0\x08\0\x01\x7f\x10\x0c\x07\x08\x90\x08\0\0\0\0\
\x24\0\0\0\0\0\0\0\0\x10\x40\0\0\0\0\0\x10\0\0\0\0\0\0\0\x41\x0e\x10\x86\x10\x43\x0d\x06\x4b\x0c\x07\x08\0\0\0\0";

// The most bytes that a section has.
const LIMIT: u64 = 2_147_483_647;

const TOO_LONG: WriteError = WriteError::Refused(Refusal {
    code: Code::NormalTooLong,
    at: 0,
});

// A writer that keeps some bytes a call while it has room, and fails at one call.
#[derive(Drop)]
struct Paper {
    bytes: Vec<u8>,
    most: usize,
    room: usize,
    calls: u64,
    fails_at: u64,
}

impl Write for Paper {
    fn write(&mut self, bytes: &[u8]) -> io::Result<usize> {
        self.calls = self.calls.saturating_add(1);
        if self.calls == self.fails_at {
            return Err(io::Error::from(ErrorKind::Other));
        }
        let count = bytes.len().min(self.most).min(self.room);
        self.bytes.extend_from_slice(&bytes[..count])?;
        self.room -= count;
        Ok(count)
    }

    fn flush(&mut self) -> io::Result<()> {
        Ok(())
    }
}

// What is written of the plain section: the answer, how many calls of `write` there were, and how many bytes of its normal
// form the writer has, or none where they are no beginning of it.
fn written(
    alloc: Global,
    cap: u64,
    most: usize,
    room: usize,
    fails_at: u64,
) -> (Result<u64, WriteError>, u64, Option<usize>) {
    let mut sink = Through::new(Paper {
        bytes: Vec::new(alloc),
        most,
        room,
        calls: 0,
        fails_at,
    });
    let answer = normalise_to(alloc, PLAIN, LITTLE, cap.min(LIMIT), &mut sink);
    let paper = sink.into_writer();
    let front = NORMAL
        .starts_with(&paper.bytes)
        .then_some(paper.bytes.len());
    (answer, paper.calls, front)
}

#[test]
fn tells_the_write_that_fails(rt: HostRuntime) -> Result<(), Fail> {
    let alloc = rt.alloc();
    for k in 1..65usize {
        let failed = Err(WriteError::Write {
            written: k as u64 - 1,
        });
        let (answer, _, front) = written(alloc, LIMIT, 1, 100, k as u64);
        assert_eq!(rt; (answer, front), (failed, Some(k - 1)), "at call {k}");
    }
    assert_eq!(rt; written(alloc, LIMIT, 1, 100, 0), (Ok(64), 64, Some(64)));
    assert_eq!(rt; written(alloc, 64, 1, 100, 65), (Ok(64), 64, Some(64)));
    let (answer, _, front) = written(alloc, LIMIT, 20, 20, 0);
    assert_eq!(rt;
        (answer, front),
        (Err(WriteError::Write { written: 20 }), Some(20))
    );
    assert_eq!(rt; written(alloc, 63, 1, 100, 0), (Err(TOO_LONG), 0, Some(0)));
    Ok(())
}

// Fails unless a section is written on a tape where its normal form just fits, and nothing is where the cap is a byte less.
fn fits_on_a_tape(alloc: Global, section: &[u8], normal: &[u8]) -> Result<(), Fail> {
    let cap = LIMIT.min(normal.len() as u64);
    let mut tape = Tape::new(alloc);
    let answer = normalise_to(alloc, section, LITTLE, cap, &mut tape);
    if answer != Ok(cap) || tape.into_bytes().as_slice() != normal {
        return Err(Fail::new(format_args!("within {cap} bytes: {answer:?}")));
    }
    let mut short = Tape::new(alloc);
    let answer = normalise_to(alloc, section, LITTLE, cap.saturating_sub(1), &mut short);
    if answer != Err(TOO_LONG) || !short.into_bytes().is_empty() {
        return Err(Fail::new(format_args!("a byte less than {cap}: {answer:?}")));
    }
    Ok(())
}

#[test]
fn writes_on_a_tape(rt: HostRuntime) -> Result<(), Fail> {
    fits_on_a_tape(rt.alloc(), PLAIN, NORMAL)
}

// Appends an FDE of the CIE at 0 that covers 16 addresses and has no instruction.
fn push_fde(out: &mut Vec<u8>, begin: u64) -> Result<(), AllocError> {
    out.extend_from_slice(b"\x14\0\0\0\0\0\0\0")?;
    out.extend_from_slice(&begin.to_le_bytes())?;
    out.extend_from_slice(b"\x10\0\0\0\0\0\0\0")
}

// A CIE whose expression has 1,000 nops, by what stands before and behind them, and 1,000 FDEs.
fn with_nops(alloc: Global, front: &[u8], behind: &[u8]) -> Result<Vec<u8>, AllocError> {
    let mut out = Vec::from_slice(alloc, front)?;
    out.extend_from_slice(&[0x96; 1000])?;
    out.extend_from_slice(behind)?;
    for i in 0..1000u64 {
        push_fde(&mut out, 0x1000 + 16 * i)?;
    }
    Ok(out)
}

// The rule of r16 stands before the expression of r3 there, and behind it in the normal form.
#[test]
fn writes_a_long_expression_on_a_tape(rt: HostRuntime) -> Result<(), Fail> {
    let alloc = rt.alloc();
    let front =
        b"\xfc\x03\0\0\xff\xff\xff\xff\x04\0\x08\0\x01\x78\x10\x0c\x07\x08\x90\x01\x10\x03\xe8\x07";
    let normal_front =
        b"\xfc\x03\0\0\xff\xff\xff\xff\x04\0\x08\0\x01\x7f\x10\x0c\x07\x08\x10\x03\xe8\x07";
    let section = with_nops(alloc, front, b"")?;
    let normal = with_nops(alloc, normal_front, b"\x90\x08")?;
    assert_eq!(rt; (section.len(), normal.len()), (25_024, 25_024));
    fits_on_a_tape(alloc, &section, &normal)
}

// Whether a section is refused at a place in it or at its end, or has a normal form, which is its own normal form and says the
// same.
fn is_answered(alloc: Global, section: &[u8]) -> Result<bool, Fail> {
    match normalise(alloc, section, LITTLE, LIMIT) {
        Ok(normal) => {
            let again = normalise(alloc, &normal, LITTLE, LIMIT)?;
            Ok(again == normal && same(alloc, section, &normal, LITTLE)?)
        }
        Err(ReadError::Refused(refusal)) => Ok(refusal.at <= 64),
        Err(ReadError::OutOfMemory) => Err(Fail::new("out of memory")),
    }
}

// A section with another byte at a place.
fn changed(alloc: Global, section: &[u8], place: usize, byte: u8) -> Result<Vec<u8>, Fail> {
    let mut out = Vec::new(alloc);
    for (i, old) in section.iter().enumerate() {
        out.push(if i == place { byte } else { *old })?;
    }
    Ok(out)
}

#[test]
fn answers_each_change_of_a_byte(rt: HostRuntime) -> Result<(), Fail> {
    for place in 0..64usize {
        for byte in 0..=255u8 {
            let section = changed(rt.alloc(), PLAIN, place, byte)?;
            assert!(rt;
                is_answered(rt.alloc(), &section)?,
                "{byte:#x} at {place:#x}"
            );
        }
    }
    Ok(())
}

fn says<E: Display + Drop>(alloc: Global, error: E, wanted: &str) -> Result<(), Fail> {
    let text = format!(in alloc; "{error}")?;
    if text.as_str() == wanted {
        return Ok(());
    }
    Err(Fail::new(format_args!("{text}, and not {wanted}")))
}

#[test]
fn says_what_is_wrong(rt: HostRuntime) -> Result<(), Fail> {
    let alloc = rt.alloc();
    let refusal = Refusal {
        code: Code::Truncated,
        at: 17,
    };
    let second = SameError::Refused(Which::Second, refusal);
    says(alloc, WriteError::Refused(refusal), "Truncated at byte 17")?;
    says(
        alloc,
        WriteError::Write { written: 20 },
        "sink failed after 20 bytes",
    )?;
    says(alloc, SinkFault, "the sink failed")?;
    says(alloc, second, "Truncated at byte 17 in the second section")
}
