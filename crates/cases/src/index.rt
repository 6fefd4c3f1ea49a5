//! The order of an index, whose call asks for memory, and the first FDE that meets another.

use crate::sections::compare;
use dw_index::{Ranged, first_overlap, put_in_order};
use std::alloc::Global;
use std::test::Fail;

// By place: two at one begin, and one before them that meets both.
const LISTED: [Ranged; 3] = [
    Ranged {
        begin: 32,
        range: 16,
        at: 24,
        return_register: 16,
    },
    Ranged {
        begin: 16,
        range: 17,
        at: 60,
        return_register: 16,
    },
    Ranged {
        begin: 32,
        range: 8,
        at: 96,
        return_register: 16,
    },
];

fn told(alloc: Global, list: &[Ranged]) -> Result<String, Fail> {
    let mut text = String::new(alloc);
    for fde in list {
        text.push_str(format!(in alloc; "{} ", fde.at)?.as_str())?;
    }
    text.push_str(format!(in alloc; "{:?}", first_overlap(list))?.as_str())?;
    Ok(text)
}

#[test]
fn puts_in_order(rt: HostRuntime) -> Result<(), Fail> {
    let mut list = Vec::from_slice(rt.alloc(), &LISTED)?;
    put_in_order(&mut list)?;
    compare(
        "an index",
        told(rt.alloc(), &list)?.as_str(),
        "60 24 96 Some(24)",
    )
}
