//! The sections of the cases.

use dw_num::{Order, Size, Target};
use std::alloc::Global;
use std::test::Fail;

pub(crate) const LITTLE: Target = Target {
    size: Size::Eight,
    order: Order::Little,
};

pub(crate) const BIG: Target = Target {
    size: Size::Four,
    order: Order::Big,
};

/// One CIE, and one FDE of four rows.
pub(crate) const PLAIN: &[u8] =
    b"\x14\0\0\0\xff\xff\xff\xff\x04\0\x08\0\x01\x78\x10\x0c\x07\x08\x90\x01\0\0\0\0\
\x24\0\0\0\0\0\0\0\0\x10\x40\0\0\0\0\0\x10\0\0\0\0\0\0\0\x41\x0e\x10\x86\x02\x43\x0d\x06\x4b\x0c\x07\x08\0\0\0\0";

/// A section with another byte at a place.
pub(crate) fn changed(
    alloc: Global,
    section: &[u8],
    place: usize,
    byte: u8,
) -> Result<Vec<u8>, Fail> {
    let mut out = Vec::new(alloc);
    for (i, old) in section.iter().enumerate() {
        out.push(if i == place { byte } else { *old })?;
    }
    Ok(out)
}

/// Fails where an answer is not the one that is wanted.
pub(crate) fn compare(case: &str, found: &str, wanted: &str) -> Result<(), Fail> {
    if found == wanted {
        return Ok(());
    }
    Err(Fail::new(format_args!("{case}: {found}, and not {wanted}")))
}
