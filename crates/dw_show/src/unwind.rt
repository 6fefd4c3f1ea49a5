//! `dwframe unwind`: the caller's frame of a machine that stopped.

ghost use Rattle.std.specs.Prelude.{◌≡◌, false};
ghost use Rattle.dw_show.specs.{Answers.{Before, Frames, Prints, UnwindEnds}, Texts.{frame_text, lines, register_text}, Listing.{Adds, output_of}};

use crate::failure::Failure;
use crate::files::{load_dump, load_file};
use crate::listing::Listing;
use dw_files::Load;
use dw_num::Target;
use dw_section::{Table, check};
use dw_unwind::{Dump, Frame, FrameRoom, unwind};
use dw_words::Unwinding;
use std::alloc::Global;
use std::io::Write;

fn put_value<W: Write>(out: &mut Listing<W>, register: u16, value: Option<u64>)
    ensures { Adds W.contents out.old out.new (register_text (register, value)) }
{
    out.make_room();
    out.text(b"r");
    out.decimal(u64::from(register));
    match value {
        Some(value) => {
            out.text(b" 0x");
            out.hex(value);
        }
        None => out.text(b" undefined"),
    }
    out.text(b"\n");
}

fn put_registers<W: Write>(out: &mut Listing<W>, values: &[(u16, Option<u64>)])
    ensures { Adds W.contents out.old out.new (lines register_text values.now) }
{
    for (register, value) in values {
        put_value(out, *register, *value);
    }
}

fn put_frame<W: Write>(out: &mut Listing<W>, frame: &Frame<'_>) -> Result<(), Failure<'static>>
    requires works { out.old.failed ≡ false }
    ensures { Prints (output_of W.contents out.old) (output_of W.contents out.new) (frame_text frame.now) tt result }
{
    out.make_room();
    out.text(b"cfa 0x");
    out.hex(frame.cfa);
    out.text(b"\nra r");
    out.decimal(u64::from(frame.return_register));
    out.text(b"\n");
    put_registers(out, frame.registers.values());
    out.finish()
}

// Puts the caller's frame, apart from the section and the files: what is owned beside ways out is proved for long.
fn put_caller<'a, W: Write>(
    alloc: Global,
    table: &Table<'_>,
    dump: &mut Dump,
    unwinding: &Unwinding<'_>,
    out: &mut Listing<W>,
) -> Result<(), Failure<'a>>
    requires works { out.old.failed ≡ false }
    ensures { Before (output_of W.contents out.old) (output_of W.contents out.new) (Frames table.now.target table.now.bytes dump.old unwinding.now.default
        unwinding.now.steps) (λ frame. Prints (output_of W.contents out.old) (output_of W.contents out.new) (frame_text frame) tt) result }
{
    let Some(pc) = dump.pc else {
        return Err(Failure::NoCounter);
    };
    let mut room = FrameRoom::new(alloc);
    let Unwinding { default, steps, .. } = *unwinding;
    let (target, registers, memory) = (table.target(), &dump.registers, &mut dump.memory);
    let frame = unwind(
        alloc, table, target, pc, &mut room, registers, memory, default, steps,
    )?;
    put_frame(out, &frame)
}

/// Prints the caller's frame. Both files are read before the section and then the dump are judged.
pub fn run_unwind<'a, L: Load, W: Write>(
    alloc: Global,
    target: Target,
    unwinding: &Unwinding<'a>,
    files: &mut L,
    out: &mut Listing<W>,
) -> Result<(), Failure<'a>>
    requires works { out.old.failed ≡ false }
    ensures { UnwindEnds (L.gives files.old) (output_of W.contents out.old) (output_of W.contents out.new) target unwinding.now result }
{
    let bytes = load_file(files, unwinding.path)?;
    let text = load_dump(files, unwinding.dump)?;
    let table = check(alloc, &bytes, target)?;
    let mut dump = Dump::parse(alloc, &text, target)?;
    put_caller(alloc, &table, &mut dump, unwinding, out)
}
