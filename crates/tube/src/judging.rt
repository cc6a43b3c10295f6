//! Judging: opens each keep-out that is still clear and whose bound is absent or reaches its
//! threshold.
ghost use Rattle.std.specs.Prelude.{◌≡◌};
ghost use Rattle.tube.specs.Judging as spec;

use super::row::Row;
use super::table::KeepOutTable;
use domains::domain::Domain;
use dynamics::direction::Direction;

/// Whether a row that is judged now opens.
fn must_open<D: Domain>(domain: &D, row: Row) -> bool
    ensures { result ≡ spec.must_open (λ l. D.sense.bounded l (D.form domain.now)) row }
{
    if !row.finding.is_clear() {
        return false;
    }
    // By `let .. else`: the project fixes this form.
    let Ok(direction) = Direction::new(row.entries) else {
        return true;
    };
    let Some(bound) = domain.bound(&direction) else {
        return true;
    };
    bound >= row.threshold
}

/// Judges every watched keep-out at a step.
pub(crate) fn judge<D: Domain>(domain: &D, table: &mut KeepOutTable, step: usize)
    ensures count { table.new.count ≡ table.old.count }
    ensures rows { table.new.rows ≡ spec.judged (λ l. D.sense.bounded l (D.form domain.now)) step table.old.count table.old.rows }
{
    // by number: one row is lent for change inside the table's function, as the project fixes
    for n in 0..table.count() {
        let row = table.row(n);
        if must_open(domain, row) {
            table.open_row(n, step);
        }
    }
}
