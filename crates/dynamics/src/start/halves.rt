//! A start cut in two on its widest part.
ghost use Rattle.std.specs.Prelude.{◌≡◌, ℕ, ◌/◌, ◌<◌, ◌≤◌, pos, unsigned_abs};
ghost use Rattle.arith.specs.Sums.{part};
ghost use Rattle.dynamics.specs.Halves.{wider, widest, shift, half_radii, moved, lower_centres, upper_centres, FirstWidest, Covering};
ghost use Rattle.dynamics.specs.Values.{width};

use super::Start;

/// Of two parts the one with the greater radius, the first where both are as great.
fn wider_part(radii: [i64; 4], a: usize, b: usize) -> usize
    requires first { a < 4 }
    requires second { b < 4 }
    ensures value { result ≡ wider (λ i. unsigned_abs (part radii i)) a b }
    ensures below { result < 4 }
{
    if radii[a].unsigned_abs() < radii[b].unsigned_abs() {
        b
    } else {
        a
    }
}

/// The part with the greatest radius, the first among equals.
fn widest_part(radii: [i64; 4]) -> usize
    ensures value { result ≡ widest (λ i. unsigned_abs (part radii i)) }
    ensures below { result < 4 }
{
    let second = wider_part(radii, 0, 1);
    let third = wider_part(radii, second, 2);
    wider_part(radii, third, 3)
}

impl Start {
    /// Half of the radius of a part, rounded down.
    fn half_radius(&self, part: usize) -> i64
        requires { part < 4 }
        ensures { result ≡ pos (width self.now part / 2) }
    {
        let radii = self.radii;
        radii[part] / 2
    }

    /// The half on a part whose centre is moved by `by`, at most half of the radius.
    fn half(&self, part: usize, by: i64) -> Start
        requires widest { part ≡ widest (width self.now) }
        requires near { unsigned_abs by ≤ shift self.now }
        ensures centres { result.centres ≡ moved by self.now }
        ensures radii { result.radii ≡ half_radii self.now }
    {
        let mut centres = self.centres;
        let mut radii = self.radii;
        centres[part] += by;
        radii[part] -= self.half_radius(part);
        Start { centres, radii }
    }

    /// The lower and the upper half on the widest part. Each has half the radius there, rounded up;
    /// where the radius is below 2, both are the whole start.
    pub fn halves(&self) -> (Start, Start)
        ensures lower { (result.0.centres ≡ lower_centres self.now) × (result.0.radii ≡ half_radii self.now) }
        ensures upper { (result.1.centres ≡ upper_centres self.now) × (result.1.radii ≡ half_radii self.now) }
        ensures widest { FirstWidest (width self.now) (widest (width self.now)) }
        ensures cover { Covering self.now result.0 result.1 }
    {
        let part = widest_part(self.radii);
        let shift = self.half_radius(part);
        (self.half(part, -shift), self.half(part, shift))
    }
}
