//! A direction: four entries within ±2^20.
ghost use Rattle.std.specs.Prelude.{◌≡◌, ℕ, ◌^◌, ◌<◌, ◌≤◌, Some, None, MatchResult};
ghost use Rattle.arith.specs.Sums.{part};
ghost use Rattle.dynamics.specs.Refusals.{number, place, direction_refusal};
ghost use Rattle.dynamics.specs.Limits.{DirectionLimits, Exactly};

use super::ranges::{check_ranges, row_numbers};
use super::refusal::Refusal;

#[derive(Clone, Copy)]
pub struct Direction {
    entries: [i64; 4],
    ghost limited: { DirectionLimits entries },
}

impl Direction {
    /// The direction with these entries, or the place of the first that is out of range.
    #[tactic(auto, using(crate::proofs::Checks::direction_exact))]
    pub fn new(entries: [i64; 4]) -> Result<Direction, Refusal>
        ensures value { MatchResult result (λ d. (direction_refusal entries ≡ None) × (d.entries ≡ entries)) (λ e. direction_refusal entries ≡ Some (number e, place e)) }
        ensures limits { Exactly (direction_refusal entries ≡ None) (DirectionLimits entries) }
    {
        check_ranges(&row_numbers(entries), 0)?;
        Ok(Direction { entries })
    }

    pub fn entries(&self) -> [i64; 4]
        ensures { result ≡ self.now.entries }
    {
        self.entries
    }
}
