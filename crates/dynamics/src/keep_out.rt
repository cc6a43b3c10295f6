//! A keep-out: a direction and a threshold within ±2^52.
ghost use Rattle.std.specs.Prelude.{◌≡◌, ℕ, ◌^◌, ◌<◌, ◌≤◌, Some, None, MatchResult, unsigned_abs};
ghost use Rattle.dynamics.specs.Refusals.{number, place, keep_out_refusal};
ghost use Rattle.dynamics.specs.Limits.{DirectionLimits, Exactly};

use super::direction::Direction;
use super::ranges::{Ranged, check_ranges};
use super::refusal::Refusal;

#[derive(Clone, Copy)]
pub struct KeepOut {
    direction: Direction,
    threshold: i64,
    ghost limited: { unsigned_abs threshold ≤ 2 ^ 52 },
}

impl KeepOut {
    /// The keep-out of these numbers, or the place of the first that is out of range: 1 to 4 for
    /// the entries, 5 for the threshold.
    #[tactic(auto, using(crate::proofs::Checks::keep_out_exact))]
    pub fn new(entries: [i64; 4], threshold: i64) -> Result<KeepOut, Refusal>
        ensures value { MatchResult result (λ k. (keep_out_refusal entries threshold ≡ None) × (k.direction.entries ≡ entries) × (k.threshold ≡ threshold)) (λ e. keep_out_refusal entries threshold ≡ Some (number e, place e)) }
        ensures limits { Exactly (keep_out_refusal entries threshold ≡ None) (DirectionLimits entries × (unsigned_abs threshold ≤ 2 ^ 52)) }
    {
        let direction = Direction::new(entries)?;
        check_ranges(&[Ranged::within(threshold, 4503599627370496)], 4)?;
        Ok(KeepOut {
            direction,
            threshold,
        })
    }

    pub fn direction(&self) -> Direction
        ensures { result ≡ self.now.direction }
    {
        self.direction
    }

    pub fn threshold(&self) -> i64
        ensures { result ≡ self.now.threshold }
    {
        self.threshold
    }
}
