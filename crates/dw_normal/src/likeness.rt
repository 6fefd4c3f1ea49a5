//! Whether two tables say the same: whether the entries of their normal forms are the same, one after another.

ghost use Rattle.std.specs.Prelude.{◌≡◌};
ghost use Rattle.dw_canon.specs.Inner.Canon.{canon};
ghost use Rattle.dw_normal.specs.Inner.{Begun.Walks, Listed.{AreInitial, AreListed}, Puts.IsKept, Writing.{Compares, LacksRoom, all_fdes, table_of}};

use crate::begun::{Begun, room_for};
use crate::entry::{fill_next, write_cies};
use crate::groups::Ready;
use crate::normal::LIMIT;
use crate::output::{Output, Stop};
use crate::sink::Tape;
use dw_section::FdeRef;
use std::alloc::Global;
use std::collections::BTreeMap;

// Whether all FDEs of two tables that have as many are written alike. It ends at the first that differs.
fn same_over<'r, 'a, 'q, 'b>(
    one: &mut Begun<'a, 'r>,
    two: &mut Begun<'b, 'q>,
    mine: &mut Output,
    other: &mut Output,
    count: usize,
) -> Result<bool, Stop>
    requires target { (table_of one.old).target ≡ (table_of two.old).target }
    requires count { AreListed (table_of one.old) count }
    requires other_count { AreListed (table_of two.old) count }
    requires walks { Walks one.old × Walks two.old }
    requires kept { IsKept mine.old × IsKept other.old }
    ensures compares { Compares (table_of one.old) (table_of two.old) all_fdes result }
    ensures full { LacksRoom (table_of one.old) (table_of two.old) all_fdes mine.old.room other.old.room result }
{
    'fdes: for place in 0..count {
        fill_next(one, mine, FdeRef { place })?;
        fill_next(two, other, FdeRef { place })?;
        if mine.bytes != other.bytes {
            return Ok(false);
        }
    }
    Ok(true)
}

/// Whether two tables say the same: the same nonempty FDEs with the same return address registers, and the same rules at each address that they cover.
pub(crate) fn same_tables(alloc: Global, one: &Ready<'_>, two: &Ready<'_>) -> Result<bool, Stop>
    requires target { one.now.table.target ≡ two.now.table.target }
    requires rows { AreInitial one.now.table one.now.rows.entries }
    requires other_rows { AreInitial two.now.table two.now.rows.entries }
    ensures compares { Compares one.now.table two.now.table (λ table ms. canon table.target ms) result }
    // There is room for two normal forms within the limit.
    ensures full { LacksRoom one.now.table two.now.table (λ table ms. canon table.target ms) 2147483647 2147483647 result }
{
    let count = one.table.fde_count();
    if two.table.fde_count() != count {
        return Ok(false);
    }
    let mut places = BTreeMap::new(alloc);
    let mut others = BTreeMap::new(alloc);
    let mut mine = Output::new(alloc, LIMIT, false);
    let mut other = Output::new(alloc, LIMIT, false);
    let mut cies = Tape::new(alloc);
    let mut other_cies = Tape::new(alloc);
    write_cies(one, &mut cies, &mut mine, &mut places)?;
    write_cies(two, &mut other_cies, &mut other, &mut others)?;
    if cies.into_bytes() != other_cies.into_bytes() {
        return Ok(false);
    }
    if count == 0 {
        return Ok(true);
    }
    let mut first = room_for(alloc, one, &places);
    let mut second = room_for(alloc, two, &others);
    let same = same_over(&mut first, &mut second, &mut mine, &mut other, count);
    drop(first);
    drop(second);
    same
}
