//! The calls that read the fields of entries, and those on a section's table.

use super::answers::{behind, say, taken, told};
use super::frames::by_index;
use dw_num::Target;
use dw_section::{Changes, FdeRef, Table, check, headers};

pub fn all_headers(rt: &HostRuntime, bytes: &[u8], target: Target) {
    told(rt, headers(rt.alloc(), bytes, target));
}

// The rows at and behind an address, past the end of a short FDE.
fn rows_from(rt: &HostRuntime, table: &Table<'_>, begin: u64) {
    for address in begin..begin.saturating_add(17) {
        say(rt, &address);
        told(rt, table.row_at(address));
    }
}

fn rows_of_each(rt: &HostRuntime, table: &Table<'_>) {
    for fde in table.fdes() {
        rows_from(rt, table, fde.begin);
    }
}

// More answers than there are changes.
fn each_change(rt: &HostRuntime, changes: &mut Changes<'_>) {
    for _ in 0..9 {
        if !told(rt, changes.next()) {
            behind(rt, changes.next());
        }
    }
}

fn changes_of_each(rt: &HostRuntime, table: &Table<'_>) {
    for place in 0..table.fde_count() {
        let mut changes = table.changes(FdeRef { place });
        each_change(rt, &mut changes);
        drop(changes);
    }
}

fn on_table(rt: &HostRuntime, call: &str, bytes: &[u8], target: Target, table: &Table<'_>) {
    match call {
        "row_at" => rows_of_each(rt, table),
        "changes" => changes_of_each(rt, table),
        _ => by_index(rt, bytes, target, table.index(), call == "frames"),
    }
}

/// A call on the table of a section, by its name.
pub fn over_table(rt: &HostRuntime, call: &str, bytes: &[u8], target: Target) {
    if let Some(table) = taken(rt, check(rt.alloc(), bytes, target)) {
        on_table(rt, call, bytes, target, &table);
    }
}
