//! One line of a dump.

ghost use Rattle.std.specs.{Prelude.{◌≡◌, ℕ, ◌<◌, ◌≤◌, ◌++◌, ◌∷◌, List, IfOk, length, MatchOption}, Bool.MatchBool};
ghost use Rattle.dw_num.specs.Digits.{digit, number_behind};
ghost use Rattle.dw_dump.specs.Spelling.{Hexadecimal, RegisterName, HexPairs, CounterLine, RegisterLine, MemoryLine, SkippedLine, LineSays};
ghost use Rattle.dw_dump.specs.{Statement.{Statement as TheStatement}, Inner.Spelling.{MemoryHead, Lacks, len_until}, Inner.Stated.stated};

use hex::FromHexError;
use std::alloc::{AllocError, Global};

#[derive(Drop)]
pub(crate) enum Statement {
    Nothing,
    Counter(u64),
    Register(u16, u64),
    Memory(u64, Vec<u8>),
}

// What stands behind a prefix.
fn behind<'a>(text: &'a [u8], prefix: &[u8]) -> Option<&'a [u8]>
    ensures { MatchOption result ((rest : List ℕ) → text.entry.now ≡ prefix.entry.now ++ rest → ⊥) (λ rest. text.entry.now ≡ prefix.entry.now ++ rest.now) }
{
    text.strip_prefix(prefix)
}

/// How many characters stand before the first of a kind, or all of them.
pub(crate) fn len_until(kind: u8, text: &[u8]) -> usize
    ensures value { result ≡ len_until kind text.now }
    ensures within { result ≤ length text.now }
{
    for (i, c) in text.iter().enumerate() {
        if *c == kind {
            return i;
        }
    }
    text.len()
}

// The word behind a prefix, and what stands behind the space that ends it.
fn word_behind<'a>(line: &'a [u8], prefix: &[u8]) -> Option<(&'a [u8], &'a [u8])>
    ensures { MatchOption result
        ((word rest : List ℕ) → Lacks 32 word → line.entry.now ≡ prefix.entry.now ++ (word ++ 32 ∷ rest) → ⊥)
        (λ parts. Lacks 32 parts.0.now × (line.entry.now ≡ prefix.entry.now ++ (parts.0.now ++ 32 ∷ parts.1.now))) }
{
    let text = behind(line, prefix)?;
    let len = len_until(b' ', text);
    if len == text.len() {
        return None;
    }
    Some((&text[..len], &text[len + 1..]))
}

fn digit_of(base: u8, c: u8) -> Option<u8>
    ensures value { result ≡ digit base c }
    ensures small { MatchOption result Unit (λ d. d < base) }
{
    let value = match c {
        b'0'..=b'9' => c - b'0',
        b'a'..=b'f' => c - b'a' + 10,
        b'A'..=b'F' => c - b'A' + 10,
        _ => return None,
    };
    if value < base { Some(value) } else { None }
}

// The number of at most sixteen digits.
fn number_in(base: u8, text: &[u8]) -> Option<u64>
    requires base { base ≤ 16 }
    requires most { length text.now ≤ 16 }
    ensures { result ≡ number_behind base 0 text.now }
{
    let mut number = 0u64;
    for c in text {
        let Some(value) = digit_of(base, *c) else {
            return None;
        };
        number = number * u64::from(base) + u64::from(value);
    }
    Some(number)
}

fn hexadecimal(text: &[u8]) -> Option<u64>
    ensures { MatchOption result ((v : ℕ) → Hexadecimal v text.now → ⊥) (λ v. Hexadecimal v text.now) }
{
    if text.is_empty() || text.len() > 16 {
        return None;
    }
    number_in(16, text)
}

fn register_name(text: &[u8]) -> Option<u16>
    ensures { MatchOption result ((r : ℕ) → RegisterName r text.now → ⊥) (λ r. RegisterName r text.now) }
{
    if text.is_empty() || text.len() > 5 || (text.len() > 1 && text[0] == b'0') {
        return None;
    }
    match number_in(10, text) {
        Some(number) if number < 65536 => Some(number as u16),
        _ => None,
    }
}

fn hex_pairs(alloc: Global, text: &[u8]) -> Result<Option<Vec<u8>>, AllocError>
    ensures { IfOk result (λ found. MatchOption found ((bytes : List ℕ) → HexPairs bytes text.now → ⊥) (λ v. HexPairs v.items text.now)) }
{
    match hex::decode(alloc, text) {
        Ok(bytes) if bytes.is_empty() => Ok(None),
        Ok(bytes) => Ok(Some(bytes)),
        Err(FromHexError::OutOfMemory) => Err(AllocError),
        Err(_) => Ok(None),
    }
}

fn counter_line(line: &[u8]) -> Option<u64>
    ensures { MatchOption result ((v : ℕ) → CounterLine v line.now → ⊥) (λ v. CounterLine v line.now) }
{
    hexadecimal(behind(line, b"pc 0x")?)
}

fn register_line(line: &[u8]) -> Option<(u16, u64)>
    ensures { MatchOption result ((r v : ℕ) → RegisterLine r v line.now → ⊥) (λ p. RegisterLine p.0 p.1 line.now) }
{
    let (name, text) = word_behind(line, b"r")?;
    let digits = behind(text, b"0x")?;
    Some((register_name(name)?, hexadecimal(digits)?))
}

fn memory_line(alloc: Global, line: &[u8]) -> Result<Option<(u64, Vec<u8>)>, AllocError>
    ensures { IfOk result (λ found. MatchOption found ((v : ℕ) (bytes : List ℕ) → MemoryLine v bytes line.now → ⊥) (λ p. MemoryLine p.0 p.1.items line.now)) }
{
    let Some((digits, pairs)) = word_behind(line, b"mem 0x") else {
        return Ok(None);
    };
    let Some(start) = hexadecimal(digits) else {
        return Ok(None);
    };
    match hex_pairs(alloc, pairs)? {
        Some(bytes) => Ok(Some((start, bytes))),
        None => Ok(None),
    }
}

/// What a line says, or None where it has none of the forms of a dump.
pub(crate) fn read_line(alloc: Global, line: &[u8]) -> Result<Option<Statement>, AllocError>
    ensures { IfOk result (λ found. MatchOption found ((s : TheStatement) → LineSays line.now s → ⊥) (λ s. LineSays line.now (stated s))) }
{
    if line.is_empty() || line[0] == b'#' {
        return Ok(Some(Statement::Nothing));
    }
    if let Some(value) = counter_line(line) {
        return Ok(Some(Statement::Counter(value)));
    }
    if let Some((register, value)) = register_line(line) {
        return Ok(Some(Statement::Register(register, value)));
    }
    match memory_line(alloc, line)? {
        Some((start, bytes)) => Ok(Some(Statement::Memory(start, bytes))),
        None => Ok(None),
    }
}
