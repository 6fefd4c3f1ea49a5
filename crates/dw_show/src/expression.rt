//! The subcommands over an expression: `expr`, its operations and its least spelling, and `eval`, its value.

ghost use Rattle.std.specs.Prelude.{◌≡◌, false};
ghost use Rattle.dw_show.specs.{Answers.{Before, EvalEnds, OverBlock, Prints, Values}, Texts.{least_text, numbered, value_text}, Listing.{Adds, output_of}};

use crate::failure::Failure;
use crate::files::load_text;
use crate::listing::Listing;
use crate::texts::{put_hex, put_op};
use dw_eval::{Env, evaluate};
use dw_files::Load;
use dw_num::Target;
use dw_op::{EncodeError, Op, OpList, Profile, decode, encode};
use dw_unwind::Dump;
use dw_words::Evaluation;
use std::alloc::Global;
use std::io::Write;

// The least spelling, behind a space where it has bytes.
fn put_least<W: Write>(out: &mut Listing<W>, least: &[u8])
    ensures { Adds W.contents out.old out.new (least_text least.now) }
{
    out.make_room();
    if least.is_empty() {
        out.text(b"least\n");
        return;
    }
    out.text(b"least ");
    put_hex(out, least);
    out.make_room();
    out.text(b"\n");
}

fn put_lines<W: Write>(out: &mut Listing<W>, ops: &[Op<'_>])
    ensures { Adds W.contents out.old out.new (numbered 0 ops.now) }
{
    for (index, op) in ops.iter().enumerate() {
        out.make_room();
        out.decimal(index as u64);
        out.text(b" ");
        put_op(out, op);
        out.make_room();
        out.text(b"\n");
    }
}

/// Prints a line for each operation of a block, and its least spelling. Nothing is printed where the block is refused.
pub fn run_expr<'a, W: Write>(
    alloc: Global,
    target: Target,
    profile: Profile,
    block: &[u8],
    out: &mut Listing<W>,
) -> Result<(), Failure<'a>>
    requires works { out.old.failed ≡ false }
    ensures { OverBlock (output_of W.contents out.old) (output_of W.contents out.new) target profile block.now result }
{
    let list = decode(alloc, block, target, profile)?;
    let least = match encode(alloc, &list) {
        Ok(least) => least,
        Err(EncodeError::OutOfMemory) => return Err(Failure::OutOfMemory),
        // What has a block has a least one.
        Err(EncodeError::BranchTooFar { .. }) => unreachable!(),
    };
    put_lines(out, list.ops());
    put_least(out, &least);
    out.finish()
}

// Puts the value, apart from the text: what is owned beside ways out is proved for long.
fn put_evaluated<'a, W: Write>(
    alloc: Global,
    list: &OpList<'_>,
    dump: &mut Dump,
    evaluation: &Evaluation<'_>,
    out: &mut Listing<W>,
) -> Result<(), Failure<'a>>
    requires works { out.old.failed ≡ false }
    ensures { Before (output_of W.contents out.old) (output_of W.contents out.new) (Values list.now.target list.now.ops evaluation.now.start dump.old
        evaluation.now.steps) (λ v. Prints (output_of W.contents out.old) (output_of W.contents out.new) (value_text v) tt) result }
{
    let env = Env {
        target: list.target(),
        registers: &dump.registers,
        frame_base: None,
        cfa: None,
        object: None,
    };
    let Evaluation { start, steps, .. } = *evaluation;
    let value = evaluate(alloc, list, start, &env, &mut dump.memory, steps)?;
    out.make_room();
    out.text(b"0x");
    out.hex(value);
    out.text(b"\n");
    out.finish()
}

/// Prints the value of an expression. The block is judged before the dump.
pub fn run_eval<'a, L: Load, W: Write>(
    alloc: Global,
    target: Target,
    evaluation: &Evaluation<'a>,
    files: &mut L,
    out: &mut Listing<W>,
) -> Result<(), Failure<'a>>
    requires works { out.old.failed ≡ false }
    ensures { EvalEnds (L.gives files.old) (output_of W.contents out.old) (output_of W.contents out.new) target evaluation.now result }
{
    let text = load_text(alloc, files, evaluation.dump)?;
    let list = decode(alloc, &evaluation.block, target, Profile::Location)?;
    let mut dump = Dump::parse(alloc, &text, target)?;
    put_evaluated(alloc, &list, &mut dump, evaluation, out)
}
