//! The entries of a normal form, put one after another. One entry is held at a time.

ghost use Rattle.std.specs.Prelude.{◌≡◌, ◌-◌, ◌<◌, ◌≤◌, ◌^◌, [], OnOk};
ghost use Rattle.dw_canon.specs.Inner.Canon.{canon};
ghost use Rattle.dw_normal.specs.Inner.{Begun.Walks, Lengths.cies_bytes, Listed.{AreInitial, AreListed, ArePlaces, IsListed, OfMembers}};
ghost use Rattle.dw_normal.specs.Inner.{Puts.{SameRoom, Sinks}, Writing.{FillsListed, all_fdes, table_of}};

use crate::begun::{Begun, begin_fde, room_for};
use crate::contents::{fill_cie, fill_fde};
use crate::groups::Ready;
use crate::output::{Output, Stop, put_entry};
use dw_canon::Sink;
use dw_section::FdeRef;
use std::alloc::Global;
use std::collections::BTreeMap;

/// Puts the CIEs of a table, and keeps where each of them stands.
pub(crate) fn write_cies<S: Sink>(
    ready: &Ready<'_>,
    sink: &mut S,
    out: &mut Output,
    places: &mut BTreeMap<u16, u64>,
) -> Result<(), Stop>
    requires failures { S.failures sink.old < 2 ^ 64 - 1 }
    requires room { out.old.room ≤ 2147483647 }
    requires none { places.old.entries ≡ [] }
    requires rows { AreInitial ready.now.table ready.now.rows.entries }
    ensures puts { Sinks S.failures S.taken (cies_bytes ready.now.table.target ready.now.rows.entries) result out.old out.new sink.old sink.new }
    ensures places { OnOk result (ArePlaces ready.now.table.target ready.now.rows.entries places.new.entries) }
    ensures counts { out.new.counts ≡ out.old.counts }
{
    ready.table.accepted();
    let target = ready.table.target();
    let room = out.room;
    'rows: for (register, initial) in ready.rows.iter() {
        if places.insert(*register, room - out.room).is_err() {
            return Err(Stop::Memory);
        }
        fill_cie(initial, out, *register, target)?;
        put_entry(sink, out, target.order)?;
    }
    Ok(())
}

/// Makes the entry an FDE of the table.
pub(crate) fn fill_next<'r, 'a>(
    begun: &mut Begun<'a, 'r>,
    out: &mut Output,
    fde: FdeRef,
) -> Result<(), Stop>
    requires room { out.old.room ≤ 2147483647 }
    requires place { IsListed (table_of begun.old) fde.place }
    requires walks { Walks begun.old }
    ensures contents { FillsListed (table_of begun.old) fde.place result out.old out.new }
    ensures walks { OnOk result (Walks begun.new) }
    ensures ready { begun.new.ready ≡ begun.old.ready }
    ensures room { SameRoom out.old out.new }
{
    let table = &begun.ready.table;
    table.accepted();
    begin_fde(begun, fde)?;
    fill_fde(begun, out, table.target())
}

// Puts the FDEs of the table one after another.
fn write_all<'r, 'a, S: Sink>(
    begun: &mut Begun<'a, 'r>,
    sink: &mut S,
    out: &mut Output,
    count: usize,
) -> Result<(), Stop>
    requires failures { S.failures sink.old < 2 ^ 64 - 1 }
    requires room { out.old.room ≤ 2147483647 }
    requires count { AreListed (table_of begun.old) count }
    requires walks { Walks begun.old }
    ensures { OfMembers (table_of begun.old) (λ ms. Sinks S.failures S.taken (all_fdes (table_of begun.old) ms) result out.old out.new sink.old sink.new) }
{
    begun.ready.table.accepted();
    let order = begun.ready.table.target().order;
    'fdes: for place in 0..count {
        fill_next(begun, out, FdeRef { place })?;
        put_entry(sink, out, order)?;
    }
    Ok(())
}

pub(crate) fn write_entries<'a, S: Sink>(
    ready: &Ready<'a>,
    alloc: Global,
    sink: &mut S,
    out: &mut Output,
) -> Result<(), Stop>
    requires failures { S.failures sink.old < 2 ^ 64 - 1 }
    requires room { out.old.room ≤ 2147483647 }
    requires rows { AreInitial ready.now.table ready.now.rows.entries }
    ensures { OfMembers ready.now.table (λ ms. Sinks S.failures S.taken (canon ready.now.table.target ms) result out.old out.new sink.old sink.new) }
{
    ready.table.accepted();
    let mut places = BTreeMap::new(alloc);
    write_cies(ready, sink, out, &mut places)?;
    let count = ready.table.fde_count();
    if count == 0 {
        return Ok(());
    }
    let mut begun = room_for(alloc, ready, &places);
    let written = write_all(&mut begun, sink, out, count);
    drop(begun);
    written
}
