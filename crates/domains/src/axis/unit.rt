//! A signed axis as a direction.
ghost use Rattle.std.specs.Prelude.{◌≡◌, ◌/◌, ◌%◌, ◌^◌, ◌<◌, ◌≤◌, neg_ℤ, if◌then◌else◌, nat_eq, unsigned_abs};
ghost use Rattle.arith.specs.Sums.{listed};
ghost use Rattle.domains.specs.Axes as spec;

use super::SignedAxis;
use dynamics::direction::Direction;

impl SignedAxis {
    /// The part that the axis looks at, counted from 0.
    pub(crate) fn part(self) -> usize
        ensures value { result ≡ self.index / 2 }
        ensures four { result < 4 }
    {
        self.index / 2
    }

    /// A number with the axis's sign.
    pub(crate) fn signed(self, z: i64) -> i64
        requires { unsigned_abs z ≤ 2 ^ 62 }
        ensures { result ≡ (if nat_eq (self.index % 2) 0 then z else neg_ℤ z) }
    {
        if self.index % 2 == 0 { z } else { -z }
    }

    /// The axis's entries as a direction: 1 or -1 at its part.
    pub(crate) fn unit(self) -> [i64; 4]
        ensures { result ≡ listed 4 (spec.unit self.index) }
    {
        let mut entries = [0; 4];
        entries[self.part()] = self.signed(1);
        entries
    }

    pub fn direction(self) -> Direction
        ensures { result ≡ spec.axis self.index }
    {
        match Direction::new(self.unit()) {
            Ok(direction) => direction,
            Err(_) => unreachable(),
        }
    }
}
