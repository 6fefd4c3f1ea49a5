//! The calls on programs: their expressions, rows all at once, and rows one at a time.

ghost use Rattle.std.specs.Prelude.{◌≡◌, ◌<◌};
ghost use Rattle.dw_num.specs.Target.{address_limit};

use super::answers::{behind, say, taken, told};
use super::expressions::on_expression;
use dw_cfa::{Factors, Instr, Instructions, RowSteps, RowWalk, become_initial, run};
use dw_num::{Program, Target};
use dw_row::{RegRule, Row};
use dw_section::{Header, headers};

/// Worked programs: a CIE that gives a rule to the CFA and to one register, one that does to twelve, behind each an FDE that
/// gives twelve registers rules, remembers a state and restores it, and a CIE with expressions.
pub const WORKED: &[u8] =
    b"\x10\x00\x00\x00\xff\xff\xff\xff\x04\x00\x08\x00\x01\x78\x10\x0c\x07\x08\x90\x01\
    \x32\x00\x00\x00\x00\x00\x00\x00\x00\x10\x00\x00\x00\x00\x00\x00\x10\x00\x00\x00\x00\x00\x00\x00\x41\x80\x01\x81\x01\x82\x01\x83\x01\x84\x01\x85\x01\x86\x01\x87\x01\x88\x01\x89\x01\x8a\x01\x44\x0a\x07\x03\x42\x0b\x43\
    \x26\x00\x00\x00\xff\xff\xff\xff\x04\x00\x08\x00\x01\x78\x10\x0c\x07\x08\x80\x01\x81\x01\x82\x01\x83\x01\x84\x01\x85\x01\x86\x01\x87\x01\x88\x01\x89\x01\x8a\x01\x90\x01\
    \x32\x00\x00\x00\x4a\x00\x00\x00\x00\x10\x00\x00\x00\x00\x00\x00\x10\x00\x00\x00\x00\x00\x00\x00\x41\x80\x01\x81\x01\x82\x01\x83\x01\x84\x01\x85\x01\x86\x01\x87\x01\x88\x01\x89\x01\x8a\x01\x44\x0a\x07\x03\x42\x0b\x43\
    \x3d\x00\x00\x00\xff\xff\xff\xff\x04\x00\x08\x00\x01\x78\x10\x0f\x16\x2f\x12\x00\x0e\x05\x00\x00\x00\x00\x00\x00\x00\x0e\x06\x00\x00\x00\x00\x00\x00\x00\x37\x0f\x0d\x0e\x05\x00\x00\x00\x00\x00\x00\x00\x92\x07\x08\x06\x0f\x04\x92\x07\x08\x06\x0f\x03\x77\x08\x06";

// The program of an entry, and its CIE's.
#[derive(Clone, Copy)]
struct Entry<'a> {
    cie: Program<'a>,
    factors: Factors,
    program: Program<'a>,
    begin: Option<u64>,
}

fn all_rows(rt: &HostRuntime, entry: Entry<'_>, begin: u64, target: Target)
    requires { begin < address_limit target.size }
{
    let (cie, program) = (entry.cie, entry.program);
    told(
        rt,
        run(rt.alloc(), cie, program, begin, entry.factors, target),
    );
}

// More answers than there are rows.
fn each_next(rt: &HostRuntime, steps: &mut RowSteps<'_>) {
    for _ in 0..9 {
        if !told(rt, steps.next()) {
            behind(rt, steps.next());
        }
    }
}

fn each_row(rt: &HostRuntime, entry: Entry<'_>, begin: u64, target: Target)
    requires { begin < address_limit target.size }
{
    let (cie, factors) = (entry.cie, entry.factors);
    let mut steps = RowSteps::new(rt.alloc(), cie, entry.program, begin, factors, target);
    each_next(rt, &mut steps);
    drop(steps);
}

fn next_lent(rt: &HostRuntime, walk: &mut RowWalk<'_>) {
    let answer = walk.advance();
    told(rt, answer);
    match answer {
        Ok(Some(_)) => say(rt, walk.row()),
        Ok(None) => {}
        Err(_) => behind(rt, walk.advance()),
    }
}

fn each_lent(rt: &HostRuntime, walk: &mut RowWalk<'_>) {
    for _ in 0..9 {
        next_lent(rt, walk);
    }
}

// The FDE's rows are gone to twice, so that what its program changed is taken back, behind the CIE's row that is kept.
fn walk_twice<'a>(rt: &HostRuntime, walk: &mut RowWalk<'a>, program: Program<'a>, begin: u64)
    requires { begin < address_limit walk.old.led.program.target.size }
{
    walk.go_to(program, begin);
    if told(rt, walk.advance()) {
        walk.go_to(program, begin);
        if told(rt, walk.keep_initial()) {
            each_lent(rt, walk);
        }
    }
}

// Whether one of the first 16 addresses of an FDE lacks a rule for the CFA.
fn print_lacking<'a>(
    rt: &HostRuntime,
    walk: &mut RowWalk<'a>,
    program: Program<'a>,
    begin: u64,
) -> bool
    requires { begin < address_limit walk.old.led.program.target.size }
    ensures { walk.new.led ≡ walk.old.led }
{
    walk.go_to(program, begin);
    told(rt, walk.lacks_rule(u128::from(begin).saturating_add(16)))
}

// The FDE's program is begun twice, so that what it changed is taken back.
fn lacks_twice<'a>(rt: &HostRuntime, walk: &mut RowWalk<'a>, program: Program<'a>, begin: u64)
    requires { begin < address_limit walk.old.led.program.target.size }
{
    if print_lacking(rt, walk, program, begin) {
        print_lacking(rt, walk, program, begin);
    }
}

fn on_walk<'a>(
    rt: &HostRuntime,
    call: &str,
    walk: &mut RowWalk<'a>,
    program: Program<'a>,
    begin: u64,
)
    requires { begin < address_limit walk.old.led.program.target.size }
{
    if call == "row_walk" {
        walk_twice(rt, walk, program, begin);
    } else {
        lacks_twice(rt, walk, program, begin);
    }
}

fn by_walk(rt: &HostRuntime, call: &str, entry: Entry<'_>, begin: u64, target: Target)
    requires { begin < address_limit target.size }
{
    let mut walk = RowWalk::new(rt.alloc(), target);
    walk.lead(entry.cie, entry.factors, target);
    on_walk(rt, call, &mut walk, entry.program, begin);
    drop(walk);
}

fn print_initial(rt: &HostRuntime, call: &str, row: &Row<'_>) {
    if call == "copied" {
        told(rt, row.copied());
    } else {
        say(rt, row);
    }
}

fn in_row<'a>(rt: &HostRuntime, call: &str, entry: Entry<'a>, target: Target, row: &mut Row<'a>) {
    if told(rt, become_initial(row, entry.cie, entry.factors, target)) {
        print_initial(rt, call, row);
    }
}

fn initial(rt: &HostRuntime, call: &str, entry: Entry<'_>, target: Target) {
    let mut row = Row::blank(rt.alloc());
    in_row(rt, call, entry, target, &mut row);
    drop(row);
}

fn from_begin(rt: &HostRuntime, call: &str, entry: Entry<'_>, begin: u64, target: Target)
    requires { begin < address_limit target.size }
{
    match call {
        "run" => all_rows(rt, entry, begin, target),
        "row_steps" => each_row(rt, entry, begin, target),
        "row_walk" | "lacks_rule" => by_walk(rt, call, entry, begin, target),
        _ => initial(rt, call, entry, target),
    }
}

fn on_fde(rt: &HostRuntime, call: &str, entry: Entry<'_>, target: Target) {
    if let Some(begin) = entry.begin {
        if u128::from(begin) < target.size.address_limit() {
            from_begin(rt, call, entry, begin, target);
        }
    }
}

fn on_instruction(rt: &HostRuntime, call: &str, instruction: &Instr<'_>) {
    match instruction {
        Instr::DefCfaExpression(expression)
        | Instr::Set(_, RegRule::Expression(expression) | RegRule::ValExpression(expression)) => {
            on_expression(rt, call, expression);
        }
        _ => {}
    }
}

fn on_program(rt: &HostRuntime, call: &str, entry: Entry<'_>, target: Target) {
    for instruction in Instructions::new(entry.program, entry.factors, target) {
        if let Some(instruction) = taken(rt, instruction) {
            on_instruction(rt, call, &instruction);
        }
    }
}

fn on_entry(rt: &HostRuntime, call: &str, entry: Entry<'_>, target: Target) {
    match call {
        "decode" | "encode" | "ops" | "put_least" => on_program(rt, call, entry, target),
        _ => on_fde(rt, call, entry, target),
    }
}

fn entry_of<'a>(list: &[Header<'a>], header: &Header<'a>) -> Option<Entry<'a>> {
    let (place, program, begin) = match *header {
        Header::Cie { at, program, .. } => (at, program, None),
        Header::Fde {
            cie_at,
            program,
            begin,
            ..
        } => (cie_at, program, Some(begin)),
    };
    for header in list {
        if let Header::Cie {
            at,
            code_factor,
            data_factor,
            program: cie,
            ..
        } = *header
        {
            if at == place {
                let factors = Factors {
                    code_factor,
                    data_factor,
                };
                return Some(Entry {
                    cie,
                    factors,
                    program,
                    begin,
                });
            }
        }
    }
    None
}

fn on_each(rt: &HostRuntime, call: &str, list: &[Header<'_>], target: Target) {
    for header in list {
        if let Some(entry) = entry_of(list, header) {
            on_entry(rt, call, entry, target);
        }
    }
}

/// A call on each program of a section, by its name.
pub fn over_section(rt: &HostRuntime, call: &str, bytes: &[u8], target: Target) {
    if let Some(list) = taken(rt, headers(rt.alloc(), bytes, target)) {
        on_each(rt, call, &list, target);
    }
}
