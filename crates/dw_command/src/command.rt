//! The whole command, over the words, files and outputs that it is given.

ghost use Rattle.std.specs.{Prelude.{◌≡◌, ◌≤◌, IfOk, false, map, string_bytes}, Result.result_map_both};
ghost use Rattle.dw_show.specs.Listing.{output_of};
ghost use Rattle.dw_command.specs.{Answers.{Ends, TaskEnds}, Engine.Runs, Inner.Exits.Exits};

use crate::forms::{run_cost, run_normal, run_same};
use crate::lent::Lent;
use dw_files::Load;
use dw_show::{
    Failure, Listing, put_help, run_at, run_check, run_entries, run_eval, run_expr, run_rows,
    run_unwind,
};
use dw_words::{Job, Request, Task, plan};
use std::alloc::Global;
use std::io::Write;

// Status 0, where there is an answer.
fn done<'a>(answer: Result<(), Failure<'a>>) -> Result<u8, Failure<'a>>
    ensures { result ≡ result_map_both (λ _. 0) (λ e. e) answer.entry }
{
    answer.map(|_| 0)
}

fn run_job<'a, L: Load, W: Write>(
    alloc: Global,
    job: Job<'a>,
    files: &mut L,
    out: &mut Listing<W>,
) -> Result<u8, Failure<'a>>
    requires works { out.old.failed ≡ false }
    ensures ends { TaskEnds (L.gives files.old) (output_of W.contents out.old) (output_of W.contents out.new) job.entry.target job.entry.task result }
    ensures most { IfOk result (λ status. status ≤ 1) }
{
    let Job { target, task } = job;
    match task {
        Task::At(lookup) => done(run_at(alloc, target, lookup, files, out)),
        Task::Check { path } => done(run_check(alloc, target, path, files, out)),
        Task::Cost { path } => done(run_cost(alloc, target, path, files, out)),
        Task::Entries { path } => done(run_entries(alloc, target, path, files, out)),
        Task::Eval(evaluation) => done(run_eval(alloc, target, &evaluation, files, out)),
        Task::Expr { profile, block } => done(run_expr(alloc, target, profile, &block, out)),
        Task::Normal(writing) => done(run_normal(alloc, target, &writing, files, out)),
        Task::Rows { path } => done(run_rows(alloc, target, path, files, out)),
        Task::Same { path, other } => run_same(alloc, target, path, other, files, out),
        Task::Unwind(unwinding) => done(run_unwind(alloc, target, &unwinding, files, out)),
    }
}

fn run<'a, L: Load, W: Write>(
    alloc: Global,
    words: &'a [String],
    files: &mut L,
    out: &mut Listing<W>,
) -> Result<u8, Failure<'a>>
    requires works { out.old.failed ≡ false }
    ensures ends { Ends (L.gives files.old) (output_of W.contents out.old) (output_of W.contents out.new) (map string_bytes words.entry.now) result }
    ensures most { IfOk result (λ status. status ≤ 1) }
{
    match plan(alloc, words)? {
        Request::Run(job) => run_job(alloc, job, files, out),
        Request::Help(text) => put_help(alloc, text, out),
    }
}

// The exit status of a run over a listing, which tells whether its output failed.
fn run_over<L: Load, W: Write, E: Write>(
    alloc: Global,
    words: &[String],
    files: &mut L,
    out: &mut Listing<W>,
    err: &mut E,
) -> u8
    requires works { out.old.failed ≡ false }
    // It is the status of an answer to these words, over these files. The output failed where it says so, and not where there is an answer.
    ensures ends { Exits (L.gives files.old) (output_of W.contents out.old) (output_of W.contents out.new) (map string_bytes words.now) result }
    ensures most { result ≤ 5 }
{
    match run(alloc, words, files, out) {
        Ok(status) => status,
        Err(failure) => {
            // A text on the use of the command ends its own lines.
            let is_long = matches!(&failure, Failure::Words(_));
            let end = if is_long { "" } else { "\n" };
            let _ = write!(err, "{failure}{end}");
            failure.status()
        }
    }
}

/// Runs the command and answers its exit status: 0 done, 1 two sections that differ, 2 a refusal or a fault, 3 wrong words, 4 a file or an output that fails,
/// 5 out of memory. The answer goes to `out`, which is flushed. From status 2 on a line on `err` says why; for words that no subcommand takes it is a text of
/// several lines. The first word is the program's own name.
///
/// With status 0 or 1 `out` got exactly the text of the answer. It got nothing where there is no answer. Where it failed, or memory ran out while the answer
/// was printed, it got a beginning.
pub fn engine<L: Load, W: Write, E: Write>(
    alloc: Global,
    words: &[String],
    files: &mut L,
    out: &mut W,
    err: &mut E,
) -> u8
    ensures runs { Runs (L.gives files.old) (W.contents out.old) (W.contents out.new) (map string_bytes words.now) result }
    ensures most { result ≤ 5 }
{
    let mut listing = Listing::new(Lent::new(out));
    let status = run_over(alloc, words, files, &mut listing, err);
    let out = listing.into_inner().into_inner();
    // No effect at run time. The proof reads what the output holds from this use.
    let _ = &*out;
    status
}
