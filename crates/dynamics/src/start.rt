//! Where a run may begin: a centre and a radius for each of the four parts.
ghost use Rattle.std.specs.Prelude.{◌≡◌, ℕ, ◌^◌, ◌<◌, ◌≤◌, IfSome, Some, None, MatchResult};
ghost use Rattle.dynamics.specs.Refusals.{number, place, start_numbers, start_refusal, wide_start};
ghost use Rattle.dynamics.specs.Limits.{StartLimits, Exactly};

mod halves;

use super::ranges::{Ranged, check_ranges, is_too_large};
use super::refusal::Refusal;

// Two arrays and no array of pairs: a product takes all centres or all radii as one vector.
#[derive(Clone, Copy)]
pub struct Start {
    centres: [i64; 4],
    radii: [i64; 4],
    ghost limited: { StartLimits centres radii },
}

/// A start's eight numbers in order, each with its range.
fn start_numbers(centres: [i64; 4], radii: [i64; 4]) -> [Ranged; 8]
    ensures { result ≡ start_numbers centres radii }
{
    [
        Ranged::within(centres[0], 1073741824),
        Ranged::up_to(radii[0], 1073741824),
        Ranged::within(centres[1], 1073741824),
        Ranged::up_to(radii[1], 1073741824),
        Ranged::within(centres[2], 1073741824),
        Ranged::up_to(radii[2], 1073741824),
        Ranged::within(centres[3], 1073741824),
        Ranged::up_to(radii[3], 1073741824),
    ]
}

/// The first part whose centre and radius are too large together.
fn first_wide_part(centres: [i64; 4], radii: [i64; 4]) -> Option<usize>
    ensures value { result ≡ wide_start centres radii }
    ensures below { IfSome result (λ i. i < 4) }
{
    // Counted: of `position` over a zip the first place stays unproved.
    for i in 0..4 {
        if is_too_large(centres[i], radii[i], 1073741824) {
            return Some(i);
        }
    }
    None
}

impl Start {
    /// The start of these numbers; or the place of the first out of range, in the order p1 w1 p2 w2
    /// p3 w3 p4 w4; or the place of the first radius that is too large with its centre.
    #[tactic(auto, using(crate::proofs::Checks::start_exact))]
    pub fn new(centres: [i64; 4], radii: [i64; 4]) -> Result<Start, Refusal>
        ensures value { MatchResult result (λ s. (start_refusal centres radii ≡ None) × (s.centres ≡ centres) × (s.radii ≡ radii)) (λ e. start_refusal centres radii ≡ Some (number e, place e)) }
        ensures limits { Exactly (start_refusal centres radii ≡ None) (StartLimits centres radii) }
    {
        check_ranges(&start_numbers(centres, radii), 0)?;
        if let Some(part) = first_wide_part(centres, radii) {
            return Err(Refusal::TooLarge {
                place: 2 * part + 2,
            });
        }
        Ok(Start { centres, radii })
    }

    pub fn centres(&self) -> [i64; 4]
        ensures { result ≡ self.now.centres }
    {
        self.centres
    }

    pub fn radii(&self) -> [i64; 4]
        ensures { result ≡ self.now.radii }
    {
        self.radii
    }
}
