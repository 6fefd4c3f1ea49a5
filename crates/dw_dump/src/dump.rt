//! A register dump, line by line.

ghost use Rattle.std.specs.Prelude.{◌≡◌, ◌+◌, ◌<◌, ◌≤◌, ◌^◌, [], List, IfOk, IfErr, MatchResult, length};
ghost use Rattle.dw_num.specs.Target.{address_limit};
ghost use Rattle.dw_dump.specs.{Describes.{Describes, RefusesDump}, Dump.Say, Inner.Gathered.{Adds, Gathers, Keeps, Takes}, Lines.lines_of};
ghost use Rattle.dw_dump.specs.{Laws.{NamesLine, OneDump}, Statement.{Statement as TheStatement, counter_is, register_is, memory_is}};
ghost use Rattle.dw_dump.specs.declared.fault.DumpError.TheVariants.{OutOfMemory};

use crate::fault::{DumpCode, DumpError, DumpFault};
use crate::line::{Statement, len_until, read_line};
use crate::memory::{DumpMemory, Range, first_overlap};
use dw_eval::Registers;
use dw_num::Target;
use std::alloc::{AllocError, Global};

/// The values of a stopped machine: its program counter, if it is given, its registers and its memory.
#[derive(Drop)]
pub struct Dump {
    /// The program counter, the address that is looked up.
    pub pc: Option<u64>,
    /// Registers by their DWARF numbers.
    pub registers: Registers,
    /// Bytes by their addresses.
    pub memory: DumpMemory,
}

// What the lines read so far have told.
#[derive(Drop)]
struct Gathered {
    pc: Option<u64>,
    registers: Registers,
    ranges: Vec<Range>,
    bytes: Vec<u8>,
}

fn add_counter(kept: &mut Gathered, value: u64, limit: u128) -> Option<DumpCode>
    ensures { (ss : List TheStatement) → Keeps limit kept.old ss → Adds limit kept.new ss (counter_is value) result }
{
    if u128::from(value) >= limit {
        return Some(DumpCode::ValueTooLarge);
    }
    if kept.pc.is_some() {
        return Some(DumpCode::Repeated);
    }
    kept.pc = Some(value);
    None
}

fn add_register(
    kept: &mut Gathered,
    register: u16,
    value: u64,
    limit: u128,
) -> Result<Option<DumpCode>, AllocError>
    ensures { (ss : List TheStatement) → Keeps limit kept.old ss → IfOk result (Adds limit kept.new ss (register_is register value)) }
{
    if u128::from(value) >= limit {
        return Ok(Some(DumpCode::ValueTooLarge));
    }
    if kept.registers.get(register).is_some() {
        return Ok(Some(DumpCode::Repeated));
    }
    kept.registers.set(register, value)?;
    Ok(None)
}

// Bytes that are given twice are found when all ranges are known.
fn add_memory(
    kept: &mut Gathered,
    start: u64,
    bytes: &[u8],
    line: u64,
    limit: u128,
) -> Result<Option<DumpCode>, AllocError>
    requires { 0 < length bytes.now }
    ensures { (ss : List TheStatement) → line ≡ length ss + 1 → Keeps limit kept.old ss → IfOk result (Adds limit kept.new ss (memory_is start bytes.now)) }
{
    if u128::from(start) + bytes.len() as u128 > limit {
        return Ok(Some(DumpCode::ValueTooLarge));
    }
    kept.ranges.push(Range {
        address: start,
        place: kept.bytes.len(),
        len: bytes.len(),
        line,
    })?;
    kept.bytes.extend_from_slice(bytes)?;
    Ok(None)
}

// Adds what a line says, or answers its fault.
fn take_line(
    alloc: Global,
    kept: &mut Gathered,
    text: &[u8],
    line: u64,
    limit: u128,
) -> Result<Option<DumpCode>, AllocError>
    ensures { (ss : List TheStatement) → line ≡ length ss + 1 → Keeps limit kept.old ss → IfOk result (Takes limit kept.new ss text.now) }
{
    let Some(statement) = read_line(alloc, text)? else {
        return Ok(Some(DumpCode::BadLine));
    };
    match statement {
        Statement::Nothing => Ok(None),
        Statement::Counter(value) => Ok(add_counter(kept, value, limit)),
        Statement::Register(register, value) => add_register(kept, register, value, limit),
        Statement::Memory(start, bytes) => add_memory(kept, start, &bytes, line, limit),
    }
}

// Reads lines up to the first fault, but for bytes that are given twice.
fn gather(
    alloc: Global,
    kept: &mut Gathered,
    text: &[u8],
    limit: u128,
) -> Result<Option<DumpFault>, AllocError>
    requires { Keeps limit kept.old [] }
    ensures { IfOk result (Gathers limit (lines_of text.now) kept.new) }
{
    let mut rest = text;
    let mut line = 0;
    while !rest.is_empty() {
        line += 1;
        let len = len_until(b'\n', rest);
        if let Some(code) = take_line(alloc, kept, &rest[..len], line, limit)? {
            return Ok(Some(DumpFault { code, line }));
        }
        rest = &rest[(len + 1).min(rest.len())..];
    }
    Ok(None)
}

// The dump of a text, with values below a limit.
fn dump_of(alloc: Global, text: &[u8], limit: u128) -> Result<Dump, DumpError>
    requires { limit ≤ 2 ^ 64 }
    ensures found { IfOk result (λ dump. (ss : List TheStatement) × Say limit (lines_of text.now) ss × Describes dump ss) }
    ensures first { IfErr result (RefusesDump limit (lines_of text.now)) }
{
    let mut kept = Gathered {
        pc: None,
        registers: Registers::new(alloc),
        ranges: Vec::new(alloc),
        bytes: Vec::new(alloc),
    };
    let fault = gather(alloc, &mut kept, text, limit)?;
    if let Some(place) = first_overlap(alloc, &kept.ranges)? {
        let (code, line) = (DumpCode::Repeated, kept.ranges[place].line);
        return Err(DumpError::Fault(DumpFault { code, line }));
    }
    if let Some(fault) = fault {
        return Err(DumpError::Fault(fault));
    }
    Ok(Dump {
        pc: kept.pc,
        registers: kept.registers,
        memory: DumpMemory::new(kept.ranges, kept.bytes),
    })
}

impl Dump {
    /// Reads a dump: lines, each ended by a line feed, which the last may lack. A line is empty, begins with
    /// `#`, or is one of
    ///
    /// ```text
    /// pc 0x<hex>             the program counter
    /// r<n> 0x<hex>           the value of register n, 0 to 65,535 in decimal without leading zeros
    /// mem 0x<hex> <bytes>    memory from an address on, two hexadecimal digits a byte
    /// ```
    ///
    /// where `<hex>` is 1 to 16 hexadecimal digits of either case. The first line at fault is named: `BadLine`
    /// where it has none of these forms, `ValueTooLarge` where a number is 2^N or more or memory passes 2^N,
    /// `Repeated` where it gives something that it or a line before it gave already.
    pub fn parse(alloc: Global, bytes: &[u8], target: Target) -> Result<Dump, DumpError>
        // It holds what the lines say, which tell nothing twice.
        ensures found { IfOk result (λ dump. (ss : List TheStatement) × Say (address_limit target.size) (lines_of bytes.now) ss × Describes dump ss) }
        // Where lines tell nothing twice and all of it fits, there is no fault.
        ensures only { (ss : List TheStatement) → Say (address_limit target.size) (lines_of bytes.now) ss
            → MatchResult result (λ dump. Describes dump ss) (λ e. e ≡ OutOfMemory) }
        // A fault names one of the lines, counted from 1.
        ensures within { IfErr result (NamesLine (lines_of bytes.now)) }
        // A refusal is the first fault.
        ensures first { IfErr result (RefusesDump (address_limit target.size) (lines_of bytes.now)) }
    {
        dump_of(alloc, bytes, target.size.address_limit())
    }
}

/// The lines of a dump say one list of things, or have one first fault, and not both. Does nothing: its contract is proved.
pub fn dump_laws()
    ensures { OneDump }
{}
