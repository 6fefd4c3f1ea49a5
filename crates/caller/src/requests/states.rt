//! The calls that set registers of a row, copy one, and go back to remembered ones. Where memory runs out a register keeps its rule.

ghost use Rattle.std.specs.Prelude.{◌≡◌, ◌<◌, length};

use super::answers::{changed, say, taken, told};
use crate::cfa::TARGET;
use dw_op::ExprRef;
use dw_row::{CfaRule, RegRule, Row, States};

// A row has an offset in a slot, an expression beside one, and two registers that have no slots.
fn rule_of<'a>(register: u16, expression: &ExprRef<'a>) -> RegRule<'a> {
    match register {
        6 => RegRule::Offset(-16),
        16 => RegRule::Expression(expression.copied()),
        128 => RegRule::ValOffset(0x100_0000_0000),
        _ => RegRule::ValExpression(expression.copied()),
    }
}

// Gives a register of a row its rule, and tells whether it has it. A refused call leaves the row, of which a copy is lent.
fn set_beside<'a>(
    rt: &HostRuntime,
    row: &mut Row<'a>,
    before: &Row<'a>,
    register: u16,
    expression: &ExprRef<'a>,
) -> bool {
    let is_set = told(rt, row.set(register, rule_of(register, expression)));
    if !is_set && !row.is_same(before) {
        changed(rt);
    }
    is_set
}

fn set<'a>(rt: &HostRuntime, row: &mut Row<'a>, register: u16, expression: &ExprRef<'a>) -> bool {
    match taken(rt, row.copied()) {
        Some(before) => set_beside(rt, row, &before, register, expression),
        None => false,
    }
}

// Prints the current row, and goes back until no row is remembered, and prints each time whether one was, and the current one.
fn back(rt: &HostRuntime, states: &mut States<'_>) {
    say(rt, states.row());
    for _ in 0..3 {
        if told(rt, states.restore()) {
            say(rt, states.row());
        }
    }
}

// Gives a register an expression, or no rule that is told.
fn change<'a>(
    rt: &HostRuntime,
    states: &mut States<'a>,
    register: u16,
    expression: Option<&ExprRef<'a>>,
) -> bool
    ensures { states.new.stack ≡ states.old.stack }
{
    let rule = match expression {
        Some(expression) => RegRule::Expression(expression.copied()),
        None => RegRule::Undefined,
    };
    told(rt, states.set(register, rule))
}

// Remembers a row, gives three registers other rules, and remembers that row too. Tells whether the current row is another one.
fn remember<'a>(rt: &HostRuntime, states: &mut States<'a>, expression: &ExprRef<'a>) -> bool
    requires { length states.old.stack < 63 }
{
    told(rt, states.remember())
        && change(rt, states, 6, Some(expression))
        && change(rt, states, 128, Some(expression))
        && change(rt, states, 300, None)
        && told(rt, states.remember())
        && told(rt, states.set(128, RegRule::Unspecified))
}

// Goes back to the rows that it remembered.
fn go_back<'a>(rt: &HostRuntime, states: &mut States<'a>, expression: &ExprRef<'a>)
    requires { length states.old.stack < 63 }
{
    if remember(rt, states, expression) {
        back(rt, states);
    }
}

fn copied<'a>(rt: &HostRuntime, copy: &mut Row<'a>, row: &Row<'a>) -> bool {
    let is_copied = told(rt, copy.set(300, RegRule::SameValue)) && told(rt, copy.become_copy(row));
    if is_copied {
        say(rt, copy);
    }
    is_copied
}

// Fills a row, and a copy of it.
fn fill<'a>(
    rt: &HostRuntime,
    row: &mut Row<'a>,
    copy: &mut Row<'a>,
    expression: &ExprRef<'a>,
) -> bool {
    row.set_cfa(CfaRule::Expression(expression.copied()));
    set(rt, row, 6, expression)
        && set(rt, row, 16, expression)
        && set(rt, row, 128, expression)
        && set(rt, row, 65_535, expression)
        && copied(rt, copy, row)
}

// From a row, whose changes are tracked or not.
fn from<'a>(rt: &HostRuntime, row: Row<'a>, tracked: bool, expression: &ExprRef<'a>) {
    let mut states = States::new(rt.alloc(), row, tracked);
    go_back(rt, &mut states, expression);
    drop(states);
}

// From a row in which nothing is set, from a row that is filled, and from a copy of it.
fn from_each<'a>(rt: &HostRuntime, expression: &ExprRef<'a>) {
    from(rt, Row::blank(rt.alloc()), false, expression);
    let (mut row, mut copy) = (Row::blank(rt.alloc()), Row::blank(rt.alloc()));
    if fill(rt, &mut row, &mut copy, expression) {
        from(rt, row, false, expression);
        from(rt, copy, true, expression);
    } else {
        drop(row);
        drop(copy);
    }
}

// From a row in which nothing is set, of which a copy is remembered, and from two of which the changes are.
pub fn all(rt: &HostRuntime) {
    if let Some(expression) = taken(rt, ExprRef::accept(b"\x77\x08\x06", TARGET)) {
        from_each(rt, &expression);
    }
}
