//! What registers without a rule are taken as.

/// What a register is taken as that no instruction has set: the ABI says it (6.4.1).
#[derive(Clone, Copy, Debug, PartialEq, Eq)]
pub enum Policy {
    /// It has not been changed, as by `DW_CFA_same_value`.
    SameValue,
    /// It has no recoverable value, as by `DW_CFA_undefined`.
    Undefined,
}
