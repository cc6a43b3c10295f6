//! A launched tube: it steps, answers bounds and findings, and is finished.
ghost use Rattle.std.specs.Prelude.{◌≡◌, ◌<◌, ◌≤◌, MatchResult, slice_index_or};
ghost use Rattle.tube.specs.Rows.{blank};

use super::fault::Fault;
use super::finding::Finding;
use super::judging::judge;
use super::summary::Summary;
use super::table::KeepOutTable;
use domains::domain::Domain;
use dynamics::direction::Direction;
use dynamics::model::Model;

#[derive(Drop)]
pub struct Launched<D> {
    pub(crate) model: Model,
    pub(crate) domain: D,
    pub(crate) table: KeepOutTable,
    pub(crate) steps: usize,
    ghost few: { steps ≤ 256 },
}

impl<D: Domain> Launched<D> {
    ghost use Rattle.tube.specs.Flights.{flight_of, stepped};

    /// Advances the domain and judges the new step.
    pub fn step(&mut self) -> Result<(), Fault>
        ensures flight { MatchResult result
            (λ _. (self.old.steps < 256)
            × (flight_of D.form self.new
            ≡ stepped D.sense self.old.model (flight_of D.form self.old))
            × (self.new.model ≡ self.old.model))
            (λ e. (e ≡ Fault.StepLimit) × (self.old.steps ≡ 256) × (self.new ≡ self.old)) }
    {
        if self.steps >= 256 {
            return Err(Fault::StepLimit);
        }
        self.domain.advance(&self.model);
        self.steps += 1;
        judge(&self.domain, &mut self.table, self.steps);
        Ok(())
    }

    /// The domain's bound.
    pub fn bound(&self, direction: &Direction) -> Option<i64>
        ensures { result ≡ D.sense.bounded direction.now (D.form self.now.domain) }
    {
        self.domain.bound(direction)
    }

    /// What is found of keep-out `n`.
    pub fn finding(&self, n: usize) -> Result<Finding, Fault>
        ensures { MatchResult result
            (λ f. (n < self.now.table.count)
            × (f ≡ (slice_index_or self.now.table.rows n blank).finding))
            (λ e. (e ≡ Fault.NoKeepOut) × (self.now.table.count ≤ n)) }
    {
        self.table.finding(n).ok_or(Fault::NoKeepOut)
    }
}

impl<D: Domain + Drop> Launched<D> {
    ghost use Rattle.tube.specs.Flights.{flight_of};
    ghost use Rattle.tube.specs.Summaries.{summary_of};

    /// Ends the tube.
    pub fn finish(self) -> Summary
        ensures { result ≡ summary_of (flight_of D.form self) }
    {
        let clear = self.table.clear_count();
        Summary {
            steps: self.steps,
            clear,
            open: self.table.count() - clear,
        }
    }
}
