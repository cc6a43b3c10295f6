//! The keep-outs that a tube watches, at most sixteen, and what is found of each.
ghost use Rattle.std.specs.Prelude.{◌≡◌, ◌+◌, ◌<◌, ◌≤◌, MatchOption, MatchResult, slice_index_or, slice_set, take};
ghost use Rattle.tube.specs.Rows.{blank, opened};

use super::fault::Fault;
use super::finding::Finding;
use super::row::Row;
use dynamics::keep_out::KeepOut;

/// The first `count` rows are watched, numbered from 0.
#[derive(Clone, Copy)]
pub struct KeepOutTable {
    // an array with a count: the project fixes this form, in memory of a fixed size
    rows: [Row; 16],
    count: usize,
    ghost few: { count ≤ 16 },
}

impl KeepOutTable {
    ghost use Rattle.tube.specs.Flights.{clear_count};
    ghost use Rattle.tube.specs.Tables.{table_of, empty_table, with_keep_out};

    /// A new table watches nothing.
    pub fn new() -> KeepOutTable
        ensures { table_of result ≡ empty_table }
    {
        KeepOutTable {
            rows: [Row::UNUSED; 16],
            count: 0,
        }
    }

    pub fn count(&self) -> usize
        ensures value { result ≡ self.now.count }
        ensures few { result ≤ 16 }
    {
        self.count
    }

    /// Watches one keep-out more, clear so far; refused where sixteen stand.
    pub fn add(&mut self, keep_out: &KeepOut) -> Result<(), Fault>
        ensures { MatchResult result
            (λ _. (self.old.count < 16)
            × (table_of self.new ≡ with_keep_out (table_of self.old) keep_out.now))
            (λ e. (e ≡ Fault.WatchLimit) × (self.old.count ≡ 16) × (self.new ≡ self.old)) }
    {
        let count = self.count;
        if count >= 16 {
            return Err(Fault::WatchLimit);
        }
        self.rows[count] = Row::new(keep_out);
        self.count = count + 1;
        Ok(())
    }

    /// Row `n` of the table.
    pub(crate) fn row(&self, n: usize) -> Row
        requires { n < 16 }
        ensures { result ≡ slice_index_or self.now.rows n blank }
    {
        self.rows[n]
    }

    /// Opens row `n` at a step.
    pub(crate) fn open_row(&mut self, n: usize, step: usize)
        requires { n < 16 }
        ensures count { self.new.count ≡ self.old.count }
        ensures rows { self.new.rows
            ≡ slice_set self.old.rows n (opened step (slice_index_or self.old.rows n blank)) }
    {
        self.rows[n].open_at(step);
    }

    /// The rows that are watched.
    fn watched(&self) -> &[Row]
        ensures { result.now ≡ take self.now.count self.now.rows }
    {
        &self.rows[..self.count]
    }

    /// What is found of keep-out `n`, absent where the table has none of that number.
    pub fn finding(&self, n: usize) -> Option<Finding>
        ensures { MatchOption result (self.now.count ≤ n)
            (λ f. (n < self.now.count) × (f ≡ (slice_index_or self.now.rows n blank).finding)) }
    {
        self.watched().get(n).map(|row| row.finding)
    }

    /// How many of the watched keep-outs are clear.
    pub fn clear_count(&self) -> usize
        ensures value { result ≡ clear_count self.now.count self.now.rows }
        ensures few { result ≤ self.now.count }
    {
        self.watched()
            .iter()
            .filter(|row| row.finding.is_clear())
            .count()
    }
}
