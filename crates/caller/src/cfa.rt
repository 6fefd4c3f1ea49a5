//! The canonical frame address (CFA) of a machine that stopped. It has 64-bit addresses, the least significant byte first.

ghost use Rattle.std.specs.Prelude.{List, IfOk, MatchOption};
ghost use Rattle.dw_section.specs.{Accepted.Accepted, Meaning.{AreFdes, NoneCovers, RulesAt}, declared.lookup.Fde.Fde};

use dw_eval::{Env, EvalError, evaluate};
use dw_num::{Order, ReadError, Size, Target};
use dw_op::ExprRef;
use dw_row::{CfaRule, Row};
use dw_section::check;
use dw_unwind::Dump;
use std::alloc::Global;
use std::fmt::Debug;
use std::{fs, io};

/// The target of the machine.
pub const TARGET: Target = Target {
    size: Size::Eight,
    order: Order::Little,
};

// The rules at an address of a section, None where no FDE covers it.
fn rules_at<'a>(
    alloc: Global,
    section: &'a [u8],
    target: Target,
    address: u64,
) -> Result<Option<Row<'a>>, ReadError>
    // The section is accepted.
    ensures accepted { IfOk result (λ _. Accepted target section.now) }
    // The row has in each column the rule at the address.
    ensures rules { (fdes : List Fde) → AreFdes target section.now fdes →
        IfOk result (λ found. MatchOption found (NoneCovers address fdes) (RulesAt target section.now address)) }
{
    let table = check(alloc, section, target)?;
    Ok(table.row_at(address)?)
}

// The value of an expression, after at most 10,000 steps.
fn value_of(alloc: Global, expression: &ExprRef<'_>, dump: &mut Dump) -> Result<u64, EvalError> {
    let list = expression.ops(alloc).map_err(|_| EvalError::OutOfMemory)?;
    let env = Env {
        target: list.target(),
        registers: &dump.registers,
        frame_base: None,
        cfa: None,
        object: None,
    };
    evaluate(alloc, &list, None, &env, &mut dump.memory, 10_000)
}

fn print_error<E: Debug>(rt: &HostRuntime, error: &E) -> io::Result<()> {
    println!(rt; "{error:?}")
}

fn print_value(rt: &HostRuntime, value: Result<u64, EvalError>) -> io::Result<()> {
    match value {
        Ok(value) => println!(rt; "an expression, here {value:#x}"),
        Err(error) => print_error(rt, &error),
    }
}

fn print_cfa(rt: &HostRuntime, rule: &CfaRule<'_>, dump: &mut Dump) -> io::Result<()> {
    match rule {
        CfaRule::Unset => println!(rt; "no rule"),
        CfaRule::Register { register, offset } => println!(rt; "r{register} + {offset}"),
        CfaRule::Expression(expression) => {
            print_value(rt, value_of(rt.alloc(), expression, dump))
        }
    }
}

fn print_at(rt: &HostRuntime, section: &[u8], pc: u64, dump: &mut Dump) -> io::Result<()> {
    match rules_at(rt.alloc(), section, TARGET, pc) {
        Ok(Some(row)) => print_cfa(rt, &row.cfa(), dump),
        Ok(None) => println!(rt; "no FDE covers {pc:#x}"),
        Err(error) => print_error(rt, &error),
    }
}

fn of_bytes(rt: &HostRuntime, section: &[u8], text: &[u8]) -> io::Result<()> {
    match Dump::parse(rt.alloc(), text, TARGET) {
        Ok(mut dump) => print_at(rt, section, dump.pc.unwrap_or(0), &mut dump),
        Err(error) => print_error(rt, &error),
    }
}

/// Reads a section and a dump, and prints the rule of the CFA at the pc.
pub fn of_files(rt: &HostRuntime, section: &str, dump: &str) -> io::Result<()> {
    of_bytes(rt, &fs::read(rt, section)?, &fs::read(rt, dump)?)
}
