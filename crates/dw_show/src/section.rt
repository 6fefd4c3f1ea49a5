//! What is told of a section as a whole: `check`, `entries`, and what `same` and `cost` print.

ghost use Rattle.std.specs.Prelude.{◌≡◌, ◌≤◌, ◌-◌, ◌^◌, false, if◌then◌else◌, length, min, IfOk};
ghost use Rattle.dw_section.specs.Meaning.{RowStarts};
ghost use Rattle.dw_show.specs.{Answers.{ChangeCount, Cuts, Prints, Tallies}, Listing.{Adds, TellsOfFile, output_of}};
ghost use Rattle.dw_show.specs.Texts.{cost_text, counts_text, entry_text, form_text, kind_text, lines, sameness_text};

use crate::failure::Failure;
use crate::files::load_file;
use crate::listing::Listing;
use dw_files::Load;
use dw_num::{Form, Target};
use dw_section::{Changes, Entry, FdeRef, Kind, Table, check, entries};
use std::alloc::{AllocError, Global};
use std::io::Write;

/// Prints how many entries the section in a file has, where it is well formed.
pub fn run_check<'a, L: Load, W: Write>(
    alloc: Global,
    target: Target,
    path: &'a str,
    files: &mut L,
    out: &mut Listing<W>,
) -> Result<(), Failure<'a>>
    requires works { out.old.failed ≡ false }
    ensures { TellsOfFile (L.gives files.old) W.contents out.old out.new path.now (Tallies target) (λ s counts. counts_text counts (length s)) result }
{
    let bytes = load_file(files, path)?;
    let bytes = bytes.as_slice();
    let table = check(alloc, bytes, target)?;
    let counts = table.counts();
    out.make_room();
    out.text(b"ok cies=");
    out.decimal(counts.cies as u64);
    out.text(b" fdes=");
    out.decimal(counts.fdes as u64);
    out.make_room();
    out.text(b" bytes=");
    out.decimal(bytes.len() as u64);
    out.text(b"\n");
    out.finish()
}

fn kind_text(kind: Kind) -> &'static [u8]
    ensures short { length result.now ≡ 5 }
    ensures text { result.now ≡ kind_text kind }
{
    match kind {
        Kind::Cie => b" cie ".as_slice(),
        Kind::Fde => b" fde ".as_slice(),
    }
}

fn form_text(form: Form) -> &'static [u8]
    ensures short { length result.now ≡ 3 }
    ensures text { result.now ≡ form_text form }
{
    match form {
        Form::Dwarf32 => b"32 ".as_slice(),
        Form::Dwarf64 => b"64 ".as_slice(),
    }
}

fn put_entry<W: Write>(out: &mut Listing<W>, entry: &Entry)
    ensures { Adds W.contents out.old out.new (entry_text entry.now) }
{
    out.make_room();
    out.text(b"0x");
    out.hex(entry.at);
    out.text(kind_text(entry.kind));
    out.text(form_text(entry.form));
    out.decimal(entry.length);
    out.text(b"\n");
}

fn put_entries<W: Write>(out: &mut Listing<W>, list: &[Entry]) -> Result<(), Failure<'static>>
    requires works { out.old.failed ≡ false }
    ensures { Prints (output_of W.contents out.old) (output_of W.contents out.new) (lines entry_text list.now) tt result }
{
    for entry in list {
        put_entry(out, entry);
        out.check()?;
    }
    out.finish()
}

/// Prints the entries of the section in a file. Nothing is printed where the section is refused.
pub fn run_entries<'a, L: Load, W: Write>(
    alloc: Global,
    target: Target,
    path: &'a str,
    files: &mut L,
    out: &mut Listing<W>,
) -> Result<(), Failure<'a>>
    requires works { out.old.failed ≡ false }
    ensures { TellsOfFile (L.gives files.old) W.contents out.old out.new path.now (Cuts target) (λ _ es. lines entry_text es) result }
{
    let bytes = load_file(files, path)?;
    let list = entries(alloc, &bytes, target)?;
    put_entries(out, &list)
}

/// Prints whether two sections say the same, and answers the exit status: 0, or 1 where not.
pub fn put_verdict<W: Write>(out: &mut Listing<W>, is_same: bool) -> Result<u8, Failure<'static>>
    requires works { out.old.failed ≡ false }
    ensures { Prints (output_of W.contents out.old) (output_of W.contents out.new) (sameness_text is_same) (if is_same then 0 else 1) result }
{
    out.make_room();
    out.text(if is_same { b"same\n" } else { b"different\n" });
    out.finish().map(|()| u8::from(!is_same))
}

fn count_changes(changes: &mut Changes<'_>) -> Result<u64, AllocError>
    ensures count { IfOk result (λ n. n ≡ min (length changes.old.to_come) (2 ^ 64 - 1)) }
    ensures section { changes.new.section ≡ changes.old.section }
{
    let mut count = 0u64;
    'changes: while let Some(_) = changes.advance()? {
        count = count.saturating_add(1);
    }
    Ok(count)
}

// How many changes all FDEs have, by changes that are gone on in. There are no more than rows that are started, so they fit.
fn tally<'a>(table: &Table<'a>, changes: &mut Changes<'a>, starts: u64) -> Result<u64, AllocError>
    requires section { changes.old.section ≡ table.now }
    requires starts { RowStarts table.now.target table.now.bytes starts }
    ensures { IfOk result (ChangeCount table.now.target table.now.bytes) }
{
    table.accepted();
    let mut count = 0u64;
    for place in 0..table.fde_count() {
        table.go_on(changes, FdeRef { place });
        count = count.saturating_add(count_changes(changes)?);
    }
    Ok(count)
}

/// Puts a name with two numbers: of a section, and of its normal form.
pub fn put_pair<W: Write>(out: &mut Listing<W>, name: &[u8], source: u64, normal: u64)
    requires short { length name.now ≤ 16 }
    ensures { Adds W.contents out.old out.new (cost_text name.now source normal) }
{
    out.make_room();
    out.text(name);
    out.decimal(source);
    out.text(b" ");
    out.decimal(normal);
    out.text(b"\n");
}

/// How many changes all FDEs have together, over the number of rows that are started.
pub fn count_changes_of(table: &Table<'_>, starts: u64) -> Result<u64, AllocError>
    requires { RowStarts table.now.target table.now.bytes starts }
    ensures { IfOk result (ChangeCount table.now.target table.now.bytes) }
{
    let mut changes = table.no_changes();
    let count = tally(table, &mut changes, starts);
    drop(changes);
    count
}
