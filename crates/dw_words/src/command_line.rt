//! The command line as `clap` reads it, with its texts of help.

ghost use Rattle.std.specs.Prelude.{◌≡◌, IfOk, Some, fold};
ghost use Rattle.clap.specs.Words.{App, new_rule, with_rule};
ghost use Rattle.dw_words.specs.Inner.Plan.{text_of};
ghost use Rattle.dw_words.specs.Inner.CommandLine.{IsArg, IsCommand, asked, command_named, own_rules, rule_of, with_arguments, with_subcommands};

use crate::help;
use crate::request::Name;
use clap::{Arg, ArgAction, Command};
use std::alloc::{AllocError, Global};

// In the order in which help lists them.
const NAMES: [Name; 10] = [
    Name::Check,
    Name::Rows,
    Name::At,
    Name::Entries,
    Name::Expr,
    Name::Eval,
    Name::Unwind,
    Name::Normal,
    Name::Same,
    Name::Cost,
];

// An argument with its help: an option, which may be required, and its value's name; a flag; an operand, which may be required; or any number of them.
#[derive(Clone, Copy)]
pub(crate) enum Argument {
    Option(&'static str, bool, &'static str, &'static str),
    Flag(&'static str, &'static str),
    Operand(&'static str, bool, &'static str),
    Operands(&'static str, &'static str),
}

const COMMON: &[Argument] = &[
    Argument::Option("size", true, "4|8", help::SIZE),
    Argument::Option("order", true, "little|big", help::ORDER),
];

const FILE: Argument = Argument::Operand("FILE", true, help::FILE);

const HEX: Argument = Argument::Operand("HEX", true, help::HEX);

const STEPS: Argument = Argument::Option("steps", false, "L", help::STEPS);

const EVAL: &[Argument] = &[
    STEPS,
    Argument::Option("start", false, "0xV", help::START),
    HEX,
    Argument::Operand("DUMP", false, help::DUMP_OF_EVAL),
];

const UNWIND: &[Argument] = &[
    Argument::Option("default", true, "same|undefined", help::DEFAULT),
    STEPS,
    FILE,
    Argument::Operand("DUMP", true, help::DUMP),
];

fn text_of(name: Name) -> &'static str
    ensures { result.now ≡ text_of name }
{
    match name {
        Name::At => "at",
        Name::Check => "check",
        Name::Cost => "cost",
        Name::Entries => "entries",
        Name::Eval => "eval",
        Name::Expr => "expr",
        Name::Normal => "normal",
        Name::Rows => "rows",
        Name::Same => "same",
        Name::Unwind => "unwind",
    }
}

fn arg<'a>(alloc: Global, id: &'a str, required: bool, action: ArgAction, help: &'a str) -> Arg<'a>
    ensures { IsArg (record (new_rule id.now) { required = required; action = Some action }) result }
{
    Arg::new(alloc, id)
        .required(required)
        .action(action)
        .help(help)
}

fn arg_of<'a>(alloc: Global, own: Argument) -> Arg<'a>
    ensures { IsArg (rule_of own) result }
{
    match own {
        Argument::Option(name, needed, value, help) => {
            arg(alloc, name, needed, ArgAction::Set, help)
                .long(name)
                .value_name(value)
        }
        Argument::Flag(name, help) => arg(alloc, name, false, ArgAction::SetTrue, help).long(name),
        Argument::Operand(name, needed, help) => arg(alloc, name, needed, ArgAction::Set, help),
        Argument::Operands(name, help) => arg(alloc, name, false, ArgAction::Append, help),
    }
}

fn own_args(name: Name) -> &'static [Argument]
    ensures { (a : App) → with_arguments a result.now ≡ fold with_rule a (own_rules name) }
{
    match name {
        Name::At => &[FILE, Argument::Operands("ADDRESS", help::ADDRESS)],
        Name::Eval => EVAL,
        Name::Expr => &[Argument::Flag("frame", help::FRAME), HEX],
        Name::Normal => &[Argument::Option("cap", false, "L", help::CAP), FILE],
        Name::Same => &[FILE, Argument::Operand("FILE2", true, help::FILE2)],
        Name::Unwind => UNWIND,
        _ => &[FILE],
    }
}

fn add_args<'a>(alloc: Global, to: Command<'a>, own: &[Argument]) -> Result<Command<'a>, AllocError>
    ensures { (a : App) → IsCommand a to.entry → IfOk result (λ c. IsCommand (with_arguments a own.now) c) }
{
    let mut command = to;
    for one in own {
        command = command.arg(arg_of(alloc, *one))?;
    }
    Ok(command)
}

// A subcommand: its own arguments stand behind the options that each of them has.
fn subcommand_named<'a>(alloc: Global, name: Name) -> Result<Command<'a>, AllocError>
    ensures { IfOk result (λ c. IsCommand (command_named name) c) }
{
    let (about, after) = help::of(name);
    let text: &'a str = text_of(name);
    let begun = Command::new(alloc, text).about(about).after_help(after);
    add_args(alloc, add_args(alloc, begun, COMMON)?, own_args(name))
}

fn with_subcommands<'a>(alloc: Global, names: &[Name]) -> Result<Command<'a>, AllocError>
    ensures { IfOk result (λ c. IsCommand (with_subcommands names.now) c) }
{
    let mut command = Command::new(alloc, "dwframe")
        .version(help::VERSION)
        .subcommand_required(true)
        .about(help::PROGRAM)
        .after_help(help::AFTER_PROGRAM);
    for name in names {
        command = command.subcommand(subcommand_named(alloc, *name)?)?;
    }
    Ok(command)
}

/// The command line for words that begin with this subcommand's name: no other one could be met, so it has no
/// other one. For words that begin with no subcommand's name it has all of them.
pub(crate) fn command_line<'a>(alloc: Global, name: Option<Name>) -> Result<Command<'a>, AllocError>
    ensures { IfOk result (λ c. IsCommand (asked name) c) }
{
    match name {
        Some(name) => with_subcommands(alloc, &[name]),
        None => with_subcommands(alloc, &NAMES),
    }
}
