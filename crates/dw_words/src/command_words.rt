//! What the words of a command line ask for.

ghost use Rattle.std.specs.Prelude.{◌≡◌, ◌≤◌, [], IfOk, IfSome, None, Some, map, option_and_then, option_map, string_bytes};
ghost use Rattle.clap.specs.Words.{all_of, first_of, found_of, rows_of};
ghost use Rattle.dw_words.specs.{Plan.Planned, Inner.{Plan.{cap_in, default_in, file_in, name_of, own, start_in, steps_in}, Values.{IsValue, either}}};
ghost use Rattle.dw_num.specs.declared.target.Size.{Size as TheSize};
ghost use Rattle.dw_words.specs.declared.request.{Name.TheVariants.{At, Check, Eval, Expr, Normal, Same, Unwind}, PlanError.TheVariants.BadValue};
ghost use Rattle.dw_words.specs.Inner.Plan.{Answers, FromFault, Given, GivenAt, Jobs, Targets, Tasks, addresses_in, asked_by, block_in};

use crate::command_line::command_line;
use crate::request::{Evaluation, Job, Lookup, Name, PlanError, Request, Task, Unwinding, Writing};
use clap::ArgMatches;
use clap::error::ErrorKind;
use dw_eval::Policy;
use dw_num::{Size, Target};
use dw_op::Profile;
use dw_values::{address, decimal, order_named, size_named};
use hex::FromHexError;
use std::alloc::Global;

// How many operations are executed where the words do not say.
const STEPS: u64 = 10_000;

const CAP: u64 = 2_147_483_647;

fn text_of<'a>(matches: &ArgMatches<'a>, id: &str) -> Option<&'a str>
    ensures { option_map (λ s. s.now) result ≡ first_of id.now (rows_of (found_of matches.now)) }
{
    matches.get_str(id)
}

fn texts_of<'m, 'a>(matches: &'m ArgMatches<'a>, id: &str) -> Option<&'m [&'a str]>
    ensures { option_map (λ texts. map (λ s. s.now) texts.now) result ≡ all_of id.now (rows_of (found_of matches.now)) }
{
    matches.get_strs(id)
}

// What has to be there, or the name of the option or operand whose value is bad.
fn needed<T>(value: Option<T>, name: &'static str) -> Result<T, PlanError>
    ensures { IsValue value (BadValue name.entry) result }
{
    value.ok_or(PlanError::BadValue(name))
}

fn either<T: Copy>(said: Option<&str>, first: (&str, T), second: (&str, T)) -> Option<T>
    ensures { result ≡ option_and_then (either first.entry.0.now first.entry.1 second.entry.0.now second.entry.1) (option_map (λ s. s.now) said.entry) }
{
    match said {
        Some(text) if text == first.0 => Some(first.1),
        Some(text) if text == second.0 => Some(second.1),
        _ => None,
    }
}

fn name_of(text: &str) -> Option<Name>
    ensures { result ≡ name_of text.now }
{
    match text {
        "at" => Some(Name::At),
        "check" => Some(Name::Check),
        "cost" => Some(Name::Cost),
        "entries" => Some(Name::Entries),
        "eval" => Some(Name::Eval),
        "expr" => Some(Name::Expr),
        "normal" => Some(Name::Normal),
        "rows" => Some(Name::Rows),
        "same" => Some(Name::Same),
        "unwind" => Some(Name::Unwind),
        _ => None,
    }
}

fn target_in(matches: &ArgMatches<'_>) -> Result<Target, PlanError>
    ensures { Targets (rows_of (found_of matches.now)) result }
{
    let size = text_of(matches, "size").and_then(|text| size_named(text));
    let size = needed(size, "--size")?;
    let order = text_of(matches, "order").and_then(|text| order_named(text));
    let order = needed(order, "--order")?;
    Ok(Target { size, order })
}

fn cap_in(matches: &ArgMatches<'_>) -> Option<u64>
    ensures value { result ≡ cap_in (rows_of (found_of matches.now)) }
    ensures within { IfSome result (λ cap. cap ≤ 2147483647) }
{
    let cap = text_of(matches, "cap").map_or(Some(CAP), |text| decimal(text))?;
    if cap <= CAP { Some(cap) } else { None }
}

fn steps_in(matches: &ArgMatches<'_>) -> Option<u64>
    ensures { result ≡ steps_in (rows_of (found_of matches.now)) }
{
    text_of(matches, "steps").map_or(Some(STEPS), |text| decimal(text))
}

fn start_in(matches: &ArgMatches<'_>, size: Size) -> Option<Option<u64>>
    ensures { result ≡ start_in size (rows_of (found_of matches.now)) }
{
    let Some(text) = text_of(matches, "start") else {
        return Some(None);
    };
    Some(Some(address(text.as_bytes(), size)?))
}

fn block_in(alloc: Global, matches: &ArgMatches<'_>) -> Result<Vec<u8>, PlanError>
    ensures { Answers (rows_of (found_of matches.now)) (Given (own Eval)) block_in (λ bytes. bytes.items) result }
{
    let text = needed(text_of(matches, "HEX"), "HEX")?;
    match hex::decode(alloc, text) {
        Ok(block) => Ok(block),
        Err(FromHexError::OutOfMemory) => Err(PlanError::OutOfMemory),
        Err(_) => Err(PlanError::BadValue("HEX")),
    }
}

fn addresses_in(alloc: Global, matches: &ArgMatches<'_>, size: Size) -> Result<Vec<u64>, PlanError>
    ensures { Answers (rows_of (found_of matches.now)) (GivenAt size []) (addresses_in size) (λ addresses. addresses.items) result }
{
    let mut addresses = Vec::new(alloc);
    let Some(texts) = texts_of(matches, "ADDRESS") else {
        return Ok(addresses);
    };
    for text in texts {
        let value = needed(address(text.as_bytes(), size), "ADDRESS")?;
        let Ok(()) = addresses.push(value) else {
            return Err(PlanError::OutOfMemory);
        };
    }
    Ok(addresses)
}

fn at_in<'a>(alloc: Global, matches: &ArgMatches<'a>, size: Size) -> Result<Task<'a>, PlanError>
    ensures { Tasks (rows_of (found_of matches.now)) At size result }
{
    let path = path_in(matches)?;
    let addresses = addresses_in(alloc, matches, size)?;
    Ok(Task::At(Lookup { path, addresses }))
}

fn eval_in<'a>(alloc: Global, matches: &ArgMatches<'a>, size: Size) -> Result<Task<'a>, PlanError>
    ensures { Tasks (rows_of (found_of matches.now)) Eval size result }
{
    let steps = needed(steps_in(matches), "--steps")?;
    let start = needed(start_in(matches, size), "--start")?;
    let block = block_in(alloc, matches)?;
    Ok(Task::Eval(Evaluation {
        steps,
        start,
        block,
        dump: text_of(matches, "DUMP"),
    }))
}

fn expr_in<'a>(alloc: Global, matches: &ArgMatches<'a>) -> Result<Task<'a>, PlanError>
    ensures { (size : TheSize) → Tasks (rows_of (found_of matches.now)) Expr size result }
{
    // What `clap` gives a flag.
    let (given, none) = (("true", Profile::Frame), ("false", Profile::Location));
    let profile = needed(either(text_of(matches, "frame"), given, none), "--frame")?;
    let block = block_in(alloc, matches)?;
    Ok(Task::Expr { profile, block })
}

fn normal_in<'a>(matches: &ArgMatches<'a>) -> Result<Task<'a>, PlanError>
    ensures { (size : TheSize) → Tasks (rows_of (found_of matches.now)) Normal size result }
{
    let cap = needed(cap_in(matches), "--cap")?;
    let path = needed(text_of(matches, "FILE"), "FILE")?;
    Ok(Task::Normal(Writing { cap, path }))
}

fn same_in<'a>(matches: &ArgMatches<'a>) -> Result<Task<'a>, PlanError>
    ensures { (size : TheSize) → Tasks (rows_of (found_of matches.now)) Same size result }
{
    let path = needed(text_of(matches, "FILE"), "FILE")?;
    let other = needed(text_of(matches, "FILE2"), "FILE2")?;
    Ok(Task::Same { path, other })
}

fn default_in(matches: &ArgMatches<'_>) -> Option<Policy>
    ensures { result ≡ default_in (rows_of (found_of matches.now)) }
{
    let same = ("same", Policy::SameValue);
    let undefined = ("undefined", Policy::Undefined);
    either(text_of(matches, "default"), same, undefined)
}

fn unwind_in<'a>(matches: &ArgMatches<'a>) -> Result<Task<'a>, PlanError>
    ensures { (size : TheSize) → Tasks (rows_of (found_of matches.now)) Unwind size result }
{
    let steps = needed(steps_in(matches), "--steps")?;
    let default = needed(default_in(matches), "--default")?;
    let path = needed(text_of(matches, "FILE"), "FILE")?;
    let dump = needed(text_of(matches, "DUMP"), "DUMP")?;
    Ok(Task::Unwind(Unwinding {
        default,
        steps,
        path,
        dump,
    }))
}

fn path_in<'a>(matches: &ArgMatches<'a>) -> Result<&'a str, PlanError>
    ensures { Answers (rows_of (found_of matches.now)) (Given (own Check)) file_in (λ path. path.now) result }
{
    needed(text_of(matches, "FILE"), "FILE")
}

fn task_in<'a>(
    alloc: Global,
    name: Name,
    size: Size,
    matches: &ArgMatches<'a>,
) -> Result<Task<'a>, PlanError>
    ensures { Tasks (rows_of (found_of matches.now)) name size result }
{
    match name {
        Name::At => at_in(alloc, matches, size),
        Name::Check => path_in(matches).map(|path| Task::Check { path }),
        Name::Cost => path_in(matches).map(|path| Task::Cost { path }),
        Name::Entries => path_in(matches).map(|path| Task::Entries { path }),
        Name::Eval => eval_in(alloc, matches, size),
        Name::Expr => expr_in(alloc, matches),
        Name::Normal => normal_in(matches),
        Name::Rows => path_in(matches).map(|path| Task::Rows { path }),
        Name::Same => same_in(matches),
        Name::Unwind => unwind_in(matches),
    }
}

fn run_in<'a>(alloc: Global, text: &str, matches: &ArgMatches<'a>) -> Result<Job<'a>, PlanError>
    ensures { Jobs (rows_of (found_of matches.now)) text.now result }
{
    let name = needed(name_of(text), "the subcommand")?;
    let target = target_in(matches)?;
    let task = task_in(alloc, name, target.size, matches)?;
    Ok(Job { target, task })
}

// What a fault that clap finds says: help is one of its faults.
fn plan_of_fault<'a>(error: clap::Error) -> Result<Request<'a>, PlanError>
    ensures { FromFault error result }
{
    match error.kind() {
        ErrorKind::DisplayHelp | ErrorKind::DisplayVersion => Ok(Request::Help(error)),
        ErrorKind::OutOfMemory => Err(PlanError::OutOfMemory),
        _ => Err(PlanError::Words(error)),
    }
}

// The subcommand whose name stands behind the program's.
fn asked_by(words: &[String]) -> Option<Name>
    ensures { result ≡ asked_by (map string_bytes words.now) }
{
    name_of(words.get(1)?.as_str())
}

/// What the words ask for, before any file is read. The first word is the program's name.
///
/// A run is answered exactly where `clap` reads the words as that subcommand with that size, order, options and operands, and each value is one that it may
/// have. `Help` is answered where they ask for help or the version, `Words` where `clap` refuses them, and `BadValue` where it takes them and a value is none
/// that it may have: the first of `--size`, `--order`, `--cap`, `--steps`, `--start`, `--default`, `HEX` and `ADDRESS`, whatever the order of the words.
pub fn plan<'a>(alloc: Global, words: &'a [String]) -> Result<Request<'a>, PlanError>
    ensures { Planned (map string_bytes words.entry.now) result }
{
    let command = command_line(alloc, asked_by(words))?;
    let matches = match command.try_get_matches_from(words) {
        Ok(matches) => matches,
        Err(error) => return plan_of_fault(error),
    };
    let Some((name, matches)) = matches.subcommand() else {
        return Err(PlanError::BadValue("the subcommand"));
    };
    let job = run_in(alloc, name, matches)?;
    Ok(Request::Run(job))
}
