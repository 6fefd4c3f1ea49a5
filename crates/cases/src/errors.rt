//! The texts and the numbers of errors.

use crate::sections::compare;
use dw_eval::ReadFault;
use dw_num::{Code, Refusal};
use dw_section::LookUpError;
use dw_unwind::{DumpCode, DumpError, DumpFault};
use std::alloc::Global;
use std::fmt::Display;
use std::test::Fail;

const REFUSAL: Refusal = Refusal {
    code: Code::Truncated,
    at: 17,
};

const FAULT: DumpFault = DumpFault {
    code: DumpCode::BadLine,
    line: 3,
};

fn says<E: Display + Drop>(alloc: Global, error: E, wanted: &str) -> Result<(), Fail> {
    let text = format!(in alloc; "{error}")?;
    compare("an error", text.as_str(), wanted)
}

#[test]
fn says_what_is_wrong(rt: HostRuntime) -> Result<(), Fail> {
    let alloc = rt.alloc();
    says(
        alloc,
        LookUpError::BadIndex,
        "the index is not the one of these bytes",
    )?;
    says(alloc, LookUpError::Refused(REFUSAL), "Truncated at byte 17")?;
    says(alloc, ReadFault::Unreadable, "a byte is missing")?;
    says(alloc, DumpError::Fault(FAULT), "BadLine at line 3")?;
    assert!(rt; (Code::Truncated.number(), Code::NormalTooLong.number()) == (1, 27));
    let (bad, large) = (DumpCode::BadLine.number(), DumpCode::ValueTooLarge.number());
    assert!(rt; (bad, large, DumpCode::Repeated.number()) == (1, 2, 3));
    Ok(())
}
