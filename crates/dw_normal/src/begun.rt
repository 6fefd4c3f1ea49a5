//! An FDE behind its begin: what the walks over its later changes start from.

ghost use Rattle.std.specs.Prelude.{◌≡◌, ◌≤◌, length, slice_index_or, Some, IsSome, OnOk};
ghost use Rattle.dw_canon.specs.Members.{Member};
ghost use Rattle.dw_normal.specs.Inner.{Begun.{IsBegun, IsReady, Walks}, Groups.row_of, Lengths.cies_bytes, Places.place_in};
ghost use Rattle.dw_normal.specs.Inner.Listed.{AreInitial, ArePlaces, IsListed, OfMembers};

use crate::apart::Apart;
use crate::groups::{Ready, cited_laws, go_behind_first};
use dw_row::Row;
use dw_section::{Changes, Fde, FdeRef};
use std::alloc::{AllocError, Global};
use std::collections::BTreeMap;

/// An FDE of a table, the initial row of its group and the place of its CIE, its changes behind its begin, whose row they lend, and the
/// registers to which these two rows give different rules. One is lent to a walk over all FDEs, so that no row is moved.
#[derive(Drop)]
pub(crate) struct Begun<'a, 'r> {
    pub(crate) ready: &'r Ready<'a>,
    pub(crate) places: &'r BTreeMap<u16, u64>,
    pub(crate) fde: Fde,
    pub(crate) shared: &'r Row<'a>,
    pub(crate) cie_at: u64,
    pub(crate) changes: Changes<'a>,
    pub(crate) apart: Apart<'a>,
}

// The initial row of a return address register, where that of another one is known, as it mostly is the same.
#[inline(always)]
fn shared_row<'r, 'a>(
    rows: &'r BTreeMap<u16, Row<'a>>,
    register: u16,
    known: u16,
    shared: &'r Row<'a>,
) -> &'r Row<'a>
    requires some { IsSome (row_of rows.now.entries register) }
    requires known { row_of rows.now.entries known ≡ Some shared.now }
    ensures { row_of rows.now.entries register ≡ Some result.now }
{
    if register == known {
        return shared;
    }
    &rows[&register]
}

// The place of the CIE of a return address register, in the same way.
#[inline(always)]
fn cie_of(places: &BTreeMap<u16, u64>, register: u16, known: u16, cie_at: u64) -> u64
    requires some { IsSome (place_in places.now.entries register) }
    requires known { place_in places.now.entries known ≡ Some cie_at }
    ensures { place_in places.now.entries register ≡ Some result }
{
    if known == register {
        return cie_at;
    }
    places[&register]
}

/// Room for the FDEs of a table, which has some, with the places of its CIEs.
pub(crate) fn room_for<'r, 'a>(
    alloc: Global,
    ready: &'r Ready<'a>,
    places: &'r BTreeMap<u16, u64>,
) -> Begun<'a, 'r>
    requires place { IsListed ready.now.table 0 }
    requires rows { AreInitial ready.now.table ready.now.rows.entries }
    requires places { ArePlaces ready.now.table.target ready.now.rows.entries places.now.entries }
    requires low { length (cies_bytes ready.now.table.target ready.now.rows.entries) ≤ 2147483647 }
    ensures walks { Walks result }
    ensures ready { result.ready.now ≡ ready.now }
{
    ready.table.accepted();
    let first = FdeRef { place: 0 };
    let fde = ready.table.fde(first);
    Begun {
        ready,
        places,
        fde,
        shared: &ready.rows[&fde.return_register],
        cie_at: places[&fde.return_register],
        changes: ready.table.changes(first),
        apart: Apart::none(alloc),
    }
}

#[inline(always)]
pub(crate) fn begin_fde<'r, 'a>(begun: &mut Begun<'a, 'r>, fde: FdeRef) -> Result<(), AllocError>
    requires place { IsListed begun.old.ready.now.table fde.place }
    requires walks { Walks begun.old }
    // It can be spelled.
    ensures ready { OnOk result (IsReady begun.old.ready.now.table.target begun.new) }
    // It is the table's FDE at this place.
    ensures is { OfMembers begun.old.ready.now.table (λ ms. (d : Member) → OnOk result (IsBegun ms (slice_index_or ms fde.place d) begun.new)) }
    ensures walks { OnOk result (Walks begun.new) }
    ensures same { (begun.new.ready ≡ begun.old.ready) × (begun.new.places ≡ begun.old.places) }
{
    let table = &begun.ready.table;
    table.accepted();
    cited_laws();
    let changed = &mut begun.apart.known.changed;
    let behind = go_behind_first(&mut begun.changes, table, fde, changed)?;
    let known = begun.fde.return_register;
    begun.fde = table.fde(fde);
    let register = begun.fde.return_register;
    let shared = shared_row(&begun.ready.rows, register, known, begun.shared);
    begun.shared = shared;
    begun.cie_at = cie_of(begun.places, register, known, begun.cie_at);
    let changes = &begun.changes;
    begun.apart.list(shared, changes, behind, register)
}
