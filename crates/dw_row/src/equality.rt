//! Rows as `==` compares them.

use crate::row::Row;

// Two rows are equal where they have the same rule in every column. Expressions are compared by their operations.
impl<'a> PartialEq for Row<'a> {
    ghost use Rattle.std.specs.Prelude.{◌≡◌, IsTrue, ◌↔◌};
    ghost use Rattle.dw_row.specs.Inner.RowEquality.{same_rows, same_laws};

    ghost eq = { same_rows };

    ghost laws = { same_laws };

    fn eq(&self, other: &Row<'a>) -> bool
        ensures test { result ≡ same_rows self.now other.now }
        ensures equal { IsTrue result ↔ self.now ≡ other.now }
    {
        self.is_same(other)
    }
}

impl<'a> Eq for Row<'a> {
    ghost use Rattle.dw_row.specs.Inner.RowEquality.{equal_laws};

    ghost laws = { equal_laws };
}
