//! Changes of a row's registers, the last of which is taken back first (6.4.2.4).

ghost use Rattle.std.specs.Prelude.{◌≡◌, ◌≤◌, ◌<◌, [], ◌∷◌, ◌++◌, OnErr, OnOk};
ghost use Rattle.std.specs.Prelude.{IfNone, IfSome, IsTrue, drop, length, true};
ghost use Rattle.dw_row.specs.Inner.Changes.{IsEntryOf, Lists, change, has_register, plain_rule};
ghost use Rattle.dw_row.specs.Rows.{rule_in};

use crate::row::Row;
use crate::rule::RegRule;
use crate::slot::register_in;
use std::alloc::{AllocError, Global};
use std::marker::Model;

// Three rows are remembered above one that is saved, and 64 registers change behind each of them.
const IN_PLACE: usize = 192;

/// A change of a register: the rule that it had before.
#[derive(Drop)]
pub(crate) struct Change<'a> {
    pub(crate) register: u16,
    pub(crate) rule: RegRule<'a>,
}

/// The kind of a rule without an expression, in one byte.
#[derive(Clone, Copy)]
enum Kind {
    Unspecified,
    Undefined,
    SameValue,
    Offset,
    ValOffset,
    Register,
}

/// Changes in their order. The first stand in place, without memory, up to one with an expression
/// or a register above 255.
#[derive(Drop)]
pub(crate) struct ChangeList<'a> {
    kinds: [Kind; IN_PLACE],
    registers: [u8; IN_PLACE],
    numbers: [i64; IN_PLACE],
    count: usize,
    rest: Vec<Change<'a>>,
}

impl<'a> Model for ChangeList<'a> {
    ghost use Rattle.dw_row.specs.Inner.Changes.{Listed, PlacesSo, listed_in};

    ghost Value = { Listed };

    ghost view = { λ c. listed_in c.kinds c.registers c.numbers c.count c.rest.items };

    ghost invariant = { λ c. PlacesSo c.kinds c.registers c.numbers c.count };
}

// The rule that stands in a place. A register that it names stands there as an offset does.
fn plain_rule<'a>(kind: Kind, number: i64) -> RegRule<'a>
    ensures { result ≡ plain_rule kind number }
{
    match kind {
        Kind::Unspecified => RegRule::Unspecified,
        Kind::Undefined => RegRule::Undefined,
        Kind::SameValue => RegRule::SameValue,
        Kind::Offset => RegRule::Offset(number),
        Kind::ValOffset => RegRule::ValOffset(number),
        Kind::Register => RegRule::Register(register_in(number)),
    }
}

// What stands in a place for a rule.
fn entry_of(rule: &RegRule<'_>) -> Option<(Kind, i64)>
    ensures { IfSome result (IsEntryOf rule.now) }
{
    Some(match rule {
        RegRule::Unspecified => (Kind::Unspecified, 0),
        RegRule::Undefined => (Kind::Undefined, 0),
        RegRule::SameValue => (Kind::SameValue, 0),
        RegRule::Offset(offset) => (Kind::Offset, *offset),
        RegRule::ValOffset(offset) => (Kind::ValOffset, *offset),
        RegRule::Register(register) => (Kind::Register, i64::from(*register)),
        _ => return None,
    })
}

impl<'a> ChangeList<'a> {
    /// No change, without memory.
    #[inline(always)]
    pub(crate) fn new(alloc: Global) -> ChangeList<'a>
        ensures { result.items ≡ [] }
    {
        // Zeros would be cleared in one piece with the rows beside them, byte by byte.
        ChangeList {
            kinds: [Kind::Register; IN_PLACE],
            registers: [255; IN_PLACE],
            numbers: [-1; IN_PLACE],
            count: 0,
            rest: Vec::new(alloc),
        }
    }

    /// How many changes there are.
    pub(crate) fn len(&self) -> usize
        ensures { result ≡ length self.now.items }
    {
        self.count + self.rest.len()
    }

    #[inline(always)]
    pub(crate) fn clear(&mut self)
        ensures { self.new.items ≡ [] }
    {
        self.count = 0;
        self.rest.clear();
    }

    // Lists a change behind all others, or answers want of memory, and is as before then.
    fn push(&mut self, register: u16, rule: RegRule<'a>) -> Result<(), AllocError>
        ensures ok { OnOk result
            (self.new.items ≡ self.old.items ++ change register rule.entry ∷ []) }
        ensures err { OnErr result (self.new ≡ self.old) }
    {
        if let Some((kind, number)) = entry_of(&rule) {
            if self.count < IN_PLACE && register < 256 && self.rest.is_empty() {
                self.kinds[self.count] = kind;
                self.registers[self.count] = register as u8;
                self.numbers[self.count] = number;
                self.count += 1;
                return Ok(());
            }
        }
        Ok(self.rest.push(Change { register, rule })?)
    }

    // Whether a register is seen among the last changes, behind the first `from`. A change that is
    // not seen is listed twice, which costs a place.
    #[inline(never)]
    fn has_listed(&self, from: usize, register: u16) -> bool
        ensures { IsTrue result → has_register register (drop from self.now.items) ≡ true }
    {
        let first = from.max(self.count.saturating_sub(64));
        for place in first..self.count {
            if u16::from(self.registers[place]) == register {
                return true;
            }
        }
        false
    }

    /// Lists the rule that a row gives a register, unless a change of it is seen behind the first
    /// `from`. It answers want of memory, and is as before then.
    #[inline(always)]
    pub(crate) fn list(
        &mut self,
        from: usize,
        register: u16,
        row: &Row<'a>,
    ) -> Result<(), AllocError>
        ensures ok { OnOk result (Lists from
            register (rule_in row.now.registers register) self.old.items self.new.items) }
        ensures err { OnErr result (self.new ≡ self.old) }
    {
        if self.has_listed(from, register) {
            return Ok(());
        }
        self.push(register, row.rule(register))
    }

    /// Takes the last change back, where there are more than `from`.
    pub(crate) fn pop_behind(&mut self, from: usize) -> Option<Change<'a>>
        ensures none { IfNone result ((length self.old.items ≤ from) × (self.new ≡ self.old)) }
        ensures some { IfSome result (λ last. (from < length self.old.items)
            × (self.old.items ≡ self.new.items ++ last ∷ [])) }
    {
        if self.len() <= from {
            return None;
        }
        if !self.rest.is_empty() {
            return self.rest.pop();
        }
        self.count -= 1;
        Some(Change {
            register: u16::from(self.registers[self.count]),
            rule: plain_rule(self.kinds[self.count], self.numbers[self.count]),
        })
    }
}
