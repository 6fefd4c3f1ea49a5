//! Rules of registers in a tree, ascending.

ghost use Rattle.std.specs.Prelude.{◌≡◌, OnOk, OnErr};
ghost use Rattle.dw_row.specs.{Difference.FirstDifference, Rows.{AreSpecified, rule_in, put}, Inner.Entries.FirstBehind};

use crate::behind::start_behind;
use crate::rule::RegRule;
use std::alloc::{AllocError, Global};
use std::collections::{BTreeMap, btree_map};
use std::ops::Bound;

/// Gives a register a rule in a tree. Unspecified takes it out.
#[tactic(auto, using(crate::proofs::WideRows::inserted_is, crate::proofs::WideRows::not_put))]
pub(crate) fn set_in_tree<'a>(
    entries: &mut BTreeMap<u16, RegRule<'a>>,
    register: u16,
    rule: RegRule<'a>,
) -> Result<(), AllocError>
    requires { AreSpecified 0 entries.old.entries }
    ensures ok { OnOk result (entries.new.entries ≡ put register rule.entry entries.old.entries) }
    ensures err { OnErr result (entries.new.entries ≡ entries.old.entries) }
{
    if rule.is_specified() {
        entries.insert(register, rule)?;
        return Ok(());
    }
    entries.remove(&register);
    Ok(())
}

/// The rule of a register in a tree. Out of line: room for a rule with an expression is cleared at each turn of a loop else.
#[inline(never)]
pub(crate) fn rule_in_tree<'a>(entries: &BTreeMap<u16, RegRule<'a>>, register: u16) -> RegRule<'a>
    ensures { result ≡ rule_in entries.now.entries register }
{
    match entries.get(&register) {
        Some(rule) => rule.copied(),
        None => RegRule::Unspecified,
    }
}

/// The first register of a tree behind another one, or of all, and its rule. Out of line: room for a walk is cleared at each step else.
#[inline(never)]
#[tactic(auto, using(crate::proofs::Difference::next_behind))]
pub(crate) fn next_in_tree<'a>(
    entries: &BTreeMap<u16, RegRule<'a>>,
    behind: Option<u16>,
) -> Option<(u16, RegRule<'a>)>
    requires { AreSpecified 128 entries.now.entries }
    ensures { FirstBehind behind entries.now.entries result }
{
    let mut left = entries.range((start_behind(behind), Bound::Unbounded));
    let Some((register, rule)) = left.next() else {
        return None;
    };
    Some((*register, rule.copied()))
}

/// The first register whose rule differs between two parts of trees.
#[tactic(auto, using(crate::proofs::Difference::none_differs))]
pub(crate) fn first_difference(
    rules: &mut btree_map::Range<'_, u16, RegRule<'_>>,
    others: &mut btree_map::Range<'_, u16, RegRule<'_>>,
) -> Option<u16>
    requires rules { AreSpecified 0 rules.old }
    requires others { AreSpecified 0 others.old }
    ensures { FirstDifference 0 rules.old others.old result }
{
    'rules: while let Some((register, rule)) = rules.next() {
        let Some((other_register, other)) = others.next() else {
            return Some(*register);
        };
        if *register < *other_register {
            return Some(*register);
        }
        if *other_register < *register {
            return Some(*other_register);
        }
        if !rule.is_same(other) {
            return Some(*register);
        }
    }
    let Some((register, _)) = others.next() else {
        return None;
    };
    Some(*register)
}
