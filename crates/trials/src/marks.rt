//! How many comparisons held.
ghost use Rattle.std.specs.Prelude.{◌≡◌, ◌+◌, ◌^◌, ◌≤◌};
ghost use Rattle.trials.specs.Counts.{marked, total};

use std::ops::{Add, AddAssign};

/// Comparisons that held, that failed, and that could not be made.
#[derive(Clone, Copy, Default)]
pub struct Marks {
    pub held: u64,
    pub failed: u64,
    pub unmade: u64,
}

impl Marks {
    /// One comparison more.
    pub fn mark(&mut self, outcome: Option<bool>)
        requires { total self.old ≤ 2 ^ 40 }
        ensures value { self.new ≡ marked self.old outcome }
        ensures count { total self.new ≡ total self.old + 1 }
    {
        match outcome {
            Some(true) => self.held += 1,
            Some(false) => self.failed += 1,
            None => self.unmade += 1,
        }
    }
}

/// Both counts together.
impl Add for Marks {
    type Output = Marks;

    ghost can_add = { λ a b. (total a ≤ 2 ^ 40) × (total b ≤ 2 ^ 40) };

    ghost add_gives = { λ a b r. (r.held ≡ a.held + b.held) × (r.failed ≡ a.failed + b.failed) × (r.unmade ≡ a.unmade + b.unmade) };

    fn add(self, other: Marks) -> Marks {
        Marks {
            held: self.held + other.held,
            failed: self.failed + other.failed,
            unmade: self.unmade + other.unmade,
        }
    }
}

impl AddAssign for Marks {
    ghost can_add_assign = { λ a b. (total a ≤ 2 ^ 40) × (total b ≤ 2 ^ 40) };

    ghost add_assign_gives = { λ a b r. (r.held ≡ a.held + b.held) × (r.failed ≡ a.failed + b.failed) × (r.unmade ≡ a.unmade + b.unmade) };

    fn add_assign(&mut self, other: Marks) {
        *self = *self + other;
    }
}
