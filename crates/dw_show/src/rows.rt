//! The subcommands that print rules: `rows`, at each address of a section, and `at`, at some.

ghost use Rattle.std.specs.{Prelude.{◌≡◌, ℕ, ◌≤◌, ◌^◌, ◌++◌, List, false, length, IfErr, MatchResult, Ok, OnOk, option_map}, List.AllByRecursion};
ghost use Rattle.dw_row.specs.Rows.{Rules};
ghost use Rattle.dw_section.specs.{Meaning.AreFdes, declared.lookup.Fde.{Fde as TheFde}};
ghost use Rattle.dw_canon.specs.Members.{AreMembers, Member};
ghost use Rattle.dw_dump.specs.Lines.{lines_of};
ghost use Rattle.dw_show.specs.{Addresses.{RefusesLine, addresses_of, lines_in}, Answers.{AtEnds, ListsFdes, Prints, PrintsOf, Tells, TellsOf}, Texts.lines};
ghost use Rattle.dw_show.specs.{Inner.Lines.line_len, RowTexts.{At, at_text, member_text, row_text}, Listing.{Adds, Breaks, TellsOfFile, output_of}};

use crate::failure::Failure;
use crate::files::{load_file, load_text};
use crate::listing::Listing;
use crate::texts::{put_fde, put_none, put_row};
use dw_cfa::RowRoom;
use dw_files::{Load, STDIN};
use dw_num::{Size, Target};
use dw_section::{Changes, FdeRef, Table, check};
use dw_unwind::{DumpCode, DumpError, DumpFault};
use dw_words::{Lookup, address};
use std::alloc::{AllocError, Global};
use std::io::Write;

fn put_changes<W: Write>(
    out: &mut Listing<W>,
    changes: &mut Changes<'_>,
) -> Result<(), Failure<'static>>
    requires in_space { AllByRecursion (λ (change : ℕ × Rules). change.0 ≤ 2 ^ 64) changes.old.to_come }
    ensures told { IfErr result (Breaks out.new) }
    ensures put { OnOk result (Adds W.contents out.old out.new (lines row_text changes.old.to_come)) }
    ensures section { changes.new.section ≡ changes.old.section }
{
    'changes: while let Some(address) = changes.advance()? {
        let Some(row) = changes.row() else {
            unreachable!();
        };
        put_row(out, address, row);
        out.check()?;
    }
    Ok(())
}

// Puts the lines of each FDE, over changes that are gone on in.
fn put_fdes<'a, W: Write>(
    out: &mut Listing<W>,
    table: &Table<'a>,
    changes: &mut Changes<'a>,
) -> Result<(), Failure<'static>>
    requires section { changes.old.section ≡ table.now }
    requires works { out.old.failed ≡ false }
    ensures { (ms : List Member) → AreMembers table.now.target table.now.bytes ms →
        Prints (output_of W.contents out.old) (output_of W.contents out.new) (lines member_text ms) tt result }
{
    table.accepted();
    for place in 0..table.fde_count() {
        let fde = FdeRef { place };
        put_fde(out, &table.fde(fde));
        table.go_on(changes, fde);
        put_changes(out, changes)?;
    }
    out.finish()
}

/// Prints the rows of the section in a file: a line for each nonempty FDE by begin, and under it one for each address
/// at which its rules change. Nothing is printed where the section is refused.
pub fn run_rows<'a, L: Load, W: Write>(
    alloc: Global,
    target: Target,
    path: &'a str,
    files: &mut L,
    out: &mut Listing<W>,
) -> Result<(), Failure<'a>>
    requires works { out.old.failed ≡ false }
    ensures { TellsOfFile (L.gives files.old) W.contents out.old out.new path.now (ListsFdes target) (λ _ ms. lines member_text ms) result }
{
    let bytes = load_file(files, path)?;
    let table = check(alloc, bytes.as_slice(), target)?;
    table.accepted();
    let mut changes = table.no_changes();
    let put = put_fdes(out, &table, &mut changes);
    drop(changes);
    put
}

fn put_at<'a, W: Write>(
    out: &mut Listing<W>,
    table: &Table<'a>,
    rows: &mut RowRoom<'a>,
    address: u64,
) -> Result<(), AllocError>
    ensures put { (fs : List TheFde) → AreFdes table.now.target table.now.bytes fs →
        OnOk result ((found : At) × TellsOf table.now.target table.now.bytes fs address found × Adds W.contents out.old out.new (at_text found)) }
{
    table.accepted();
    let Some(fde) = table.look_up(address, rows)? else {
        put_none(out, address);
        return Ok(());
    };
    put_fde(out, &fde);
    put_row(out, u128::from(address), rows.row());
    Ok(())
}

fn put_each<'a, W: Write>(
    out: &mut Listing<W>,
    table: &Table<'a>,
    rows: &mut RowRoom<'a>,
    addresses: &[u64],
) -> Result<(), Failure<'static>>
    requires works { out.old.failed ≡ false }
    ensures { PrintsOf (output_of W.contents out.old) (output_of W.contents out.new) (Tells table.now.target table.now.bytes addresses.now)
        (lines at_text) tt result }
{
    table.accepted();
    for address in addresses {
        put_at(out, table, rows, *address)?;
        out.check()?;
    }
    out.finish()
}

// How many characters stand before the first line feed, or all of them.
fn line_len(text: &[u8]) -> usize
    ensures value { result ≡ line_len text.now }
    ensures within { result ≤ length text.now }
{
    for (i, c) in text.iter().enumerate() {
        if *c == b'\n' {
            return i;
        }
    }
    text.len()
}

// Adds the addresses of a text's lines. `BadLine` is answered for the first line that says none, an empty one among them.
fn add_lines(addresses: &mut Vec<u64>, text: &[u8], size: Size) -> Result<(), DumpError>
    ensures { MatchResult result (λ _. (more : List ℕ) × (addresses_of size 1 (lines_of text.now) ≡ Ok more)
        × (addresses.new.items ≡ addresses.old.items ++ more)) (RefusesLine size (lines_of text.now)) }
{
    let mut rest = text;
    let mut line = 1;
    while !rest.is_empty() {
        let len = line_len(rest);
        let Some(address) = address(&rest[..len], size) else {
            let code = DumpCode::BadLine;
            return Err(DumpError::Fault(DumpFault { code, line }));
        };
        addresses.push(address)?;
        rest = &rest[(len + 1).min(rest.len())..];
        line += 1;
    }
    Ok(())
}

// The path of the lines that are read where the words name no address.
fn lines_in(addresses: &[u64]) -> Option<&'static str>
    ensures { option_map (λ path. path.now) result ≡ lines_in addresses.now }
{
    addresses.is_empty().then_some(STDIN)
}

/// Prints the FDE that covers each address, and its rules there. Both files are read before the section and then the lines are judged.
pub fn run_at<'a, L: Load, W: Write>(
    alloc: Global,
    target: Target,
    lookup: Lookup<'a>,
    files: &mut L,
    out: &mut Listing<W>,
) -> Result<(), Failure<'a>>
    requires works { out.old.failed ≡ false }
    ensures { AtEnds (L.gives files.old) (output_of W.contents out.old) (output_of W.contents out.new) target lookup.entry result }
{
    let mut addresses = lookup.addresses;
    let bytes = load_file(files, lookup.path)?;
    let text = load_text(alloc, files, lines_in(&addresses))?;
    let table = check(alloc, &bytes, target)?;
    add_lines(&mut addresses, &text, target.size)?;
    let mut rows = RowRoom::new(alloc);
    let put = put_each(out, &table, &mut rows, &addresses);
    drop(rows);
    put
}
