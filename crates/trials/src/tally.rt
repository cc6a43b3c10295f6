//! What is seen of tubes.
ghost use Rattle.std.specs.Prelude.{◌≡◌, ◌+◌, ◌^◌, ◌<◌};
ghost use Rattle.trials.specs.Counts.{joined, looked};

use std::ops::{Add, AddAssign};

/// Bounds that were present and absent, states beyond a bound, keep-outs found clear, and runs that
/// entered one of those.
#[derive(Clone, Copy, Default)]
pub struct Tally {
    pub present: u64,
    pub absent: u64,
    pub escapes: u64,
    pub clear: u64,
    pub entered: u64,
}

/// Both counts together.
impl Add for Tally {
    type Output = Tally;

    ghost add_gives = { λ s t r. (r ≡ joined s t) × (looked s + looked t < 2 ^ 60 → looked r ≡ looked s + looked t) };

    // Saturating: no contract limits how many runs there are, so plain sums would ask for limits.
    fn add(self, other: Tally) -> Tally {
        Tally {
            present: self.present.saturating_add(other.present),
            absent: self.absent.saturating_add(other.absent),
            escapes: self.escapes.saturating_add(other.escapes),
            clear: self.clear.saturating_add(other.clear),
            entered: self.entered.saturating_add(other.entered),
        }
    }
}

impl AddAssign for Tally {
    ghost add_assign_gives = { λ s t r. (r ≡ joined s t) × (looked s + looked t < 2 ^ 60 → looked r ≡ looked s + looked t) };

    fn add_assign(&mut self, other: Tally) {
        *self = *self + other;
    }
}
