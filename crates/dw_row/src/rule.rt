//! Rules: how the canonical frame address and the caller's registers are found (6.4.1).

ghost use Rattle.std.specs.Prelude.{◌≡◌, IsTrue, ◌↔◌};
ghost use Rattle.dw_row.specs.Rows.{is_specified};

use dw_op::ExprRef;

/// How the canonical frame address is found (6.4.1, 6.4.2.2).
#[derive(Clone, Debug, Default, Drop, PartialEq, Eq)]
pub enum CfaRule<'a> {
    /// No instruction has set it.
    #[default]
    Unset,
    /// A register plus an offset, which is a whole number of bytes: `DW_CFA_def_cfa` and those that change half of it. One that is
    /// read is from -(2^63-1) to 2^63-1.
    Register { register: u16, offset: i64 },
    /// The value of an expression, whose stack begins empty: `DW_CFA_def_cfa_expression`.
    Expression(ExprRef<'a>),
}

impl<'a> CfaRule<'a> {
    /// The same rule once more.
    pub fn copied(&self) -> CfaRule<'a>
        ensures { result ≡ self.now }
    {
        match self {
            CfaRule::Unset => CfaRule::Unset,
            CfaRule::Register { register, offset } => CfaRule::Register {
                register: *register,
                offset: *offset,
            },
            CfaRule::Expression(expression) => CfaRule::Expression(expression.copied()),
        }
    }

    /// Whether both are one rule. Expressions are compared by their operations.
    #[inline(always)]
    pub fn is_same(&self, other: &CfaRule<'_>) -> bool
        ensures { IsTrue result ↔ (self.now ≡ other.now) }
    {
        match (self, other) {
            (CfaRule::Unset, CfaRule::Unset) => true,
            (
                CfaRule::Register { register, offset },
                CfaRule::Register {
                    register: r,
                    offset: n,
                },
            ) => *register == *r && *offset == *n,
            (CfaRule::Expression(expression), CfaRule::Expression(e)) => *expression == *e,
            _ => false,
        }
    }
}

/// How a register of the caller is found (6.4.1, 6.4.2.3). CFA is the canonical frame address.
#[derive(Clone, Debug, Default, Drop, PartialEq, Eq)]
pub enum RegRule<'a> {
    /// No instruction has set it: the ABI's default holds. No `DW_CFA_` instruction sets it but one that restores.
    #[default]
    Unspecified,
    /// `undefined`: it has no recoverable value (`DW_CFA_undefined`).
    Undefined,
    /// `same value`: it has not been changed (`DW_CFA_same_value`).
    SameValue,
    /// `offset(N)`: its value stands in memory at CFA plus an offset (`DW_CFA_offset`, `DW_CFA_offset_extended`,
    /// `DW_CFA_offset_extended_sf`). The offset is in bytes. One that is read is from -(2^63-1) to 2^63-1.
    Offset(i64),
    /// `val_offset(N)`: its value is CFA plus an offset (`DW_CFA_val_offset`, `DW_CFA_val_offset_sf`). The offset is in bytes. One
    /// that is read is from -(2^63-1) to 2^63-1.
    ValOffset(i64),
    /// `register(R)`: its value is in another register (`DW_CFA_register`).
    Register(u16),
    /// `expression(E)`: its value stands in memory at the address that an expression gives (`DW_CFA_expression`). The stack of
    /// the expression begins with the CFA on it.
    Expression(ExprRef<'a>),
    /// `val_expression(E)`: its value is that of an expression (`DW_CFA_val_expression`). The stack of the expression begins with the CFA on it.
    ValExpression(ExprRef<'a>),
}

impl<'a> RegRule<'a> {
    /// Whether an instruction has set it.
    #[inline(always)]
    pub fn is_specified(&self) -> bool
        ensures { result ≡ is_specified self.now }
    {
        !matches!(self, RegRule::Unspecified)
    }

    /// The same rule once more.
    pub fn copied(&self) -> RegRule<'a>
        ensures { result ≡ self.now }
    {
        match self {
            RegRule::Unspecified => RegRule::Unspecified,
            RegRule::Undefined => RegRule::Undefined,
            RegRule::SameValue => RegRule::SameValue,
            RegRule::Offset(offset) => RegRule::Offset(*offset),
            RegRule::ValOffset(offset) => RegRule::ValOffset(*offset),
            RegRule::Register(register) => RegRule::Register(*register),
            RegRule::Expression(expression) => RegRule::Expression(expression.copied()),
            RegRule::ValExpression(expression) => RegRule::ValExpression(expression.copied()),
        }
    }

    /// Whether both are one rule. Expressions are compared by their operations.
    #[inline(always)]
    pub(crate) fn is_same(&self, other: &RegRule<'_>) -> bool
        ensures { IsTrue result ↔ (self.now ≡ other.now) }
    {
        match (self, other) {
            (RegRule::Unspecified, RegRule::Unspecified)
            | (RegRule::Undefined, RegRule::Undefined)
            | (RegRule::SameValue, RegRule::SameValue) => true,
            (RegRule::Offset(offset), RegRule::Offset(n)) => *offset == *n,
            (RegRule::ValOffset(offset), RegRule::ValOffset(n)) => *offset == *n,
            (RegRule::Register(register), RegRule::Register(r)) => *register == *r,
            (RegRule::Expression(expression), RegRule::Expression(e)) => *expression == *e,
            (RegRule::ValExpression(expression), RegRule::ValExpression(e)) => *expression == *e,
            _ => false,
        }
    }
}
