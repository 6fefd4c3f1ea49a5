//! Rows as `{:?}` prints them.

use crate::row::Row;
use std::fmt;

impl<'a> fmt::Debug for Row<'a> {
    fn fmt<W: fmt::Write>(&self, f: &mut fmt::Formatter<W>) -> fmt::Result {
        write!(f, "Row {{ cfa: {:?}, registers: {{", self.cfa())?;
        for (register, rule) in self.specified() {
            write!(f, " {register}: {rule:?},")?;
        }
        write!(f, " }} }}")
    }
}
