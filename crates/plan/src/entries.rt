//! The four entries of a row, a column or a direction.
ghost use Rattle.std.specs.Prelude.{◌≡◌};
ghost use Rattle.plan.specs.Fields.{entries_of};

use super::faults::FieldFault;
use super::fields::ranged;

/// What stands in fields 3 to 6.
// Four names and no array: the check has no rule for an enum's case that holds an array of references.
#[derive(Clone, Copy)]
pub struct Entries<'a> {
    pub a: &'a [u8],
    pub b: &'a [u8],
    pub c: &'a [u8],
    pub d: &'a [u8],
}

impl<'a> Entries<'a> {
    /// The numbers that they write.
    pub(crate) fn numbers(self) -> Result<[i64; 4], FieldFault>
        ensures { result ≡ entries_of self.entry.a.now self.entry.b.now self.entry.c.now self.entry.d.now }
    {
        Ok([
            ranged(self.a, 3, -1048576, 1048576)?,
            ranged(self.b, 4, -1048576, 1048576)?,
            ranged(self.c, 5, -1048576, 1048576)?,
            ranged(self.d, 6, -1048576, 1048576)?,
        ])
    }
}
