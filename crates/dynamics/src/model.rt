//! The closed loop and its gusts: v = A x + B d.
ghost use Rattle.std.specs.Prelude.{◌≡◌, ℕ, ◌^◌, ◌<◌, ◌≤◌, [], ◌∷◌, Some, None, MatchResult};
ghost use Rattle.dynamics.specs.Refusals.{number, place, channel_numbers, model_refusal, by_parts};
ghost use Rattle.dynamics.specs.Limits.{MatrixLimits, GustLimits, ModelLimits, Exactly};

use super::channel::Channel;
use super::ranges::{Ranged, check_matrix, check_ranges, check_sum, row_numbers};
use super::refusal::Refusal;

/// `matrix` is A by rows, `gains` is B by rows, one row for each part; `centres` and `radii` are
/// those of the two gust channels.
// Two arrays for the gusts and no array of pairs: a product takes all centres or all radii.
#[derive(Clone, Copy)]
pub struct Model {
    matrix: [[i64; 4]; 4],
    gains: [[i64; 2]; 4],
    centres: [i64; 2],
    radii: [i64; 2],
    ghost entered: { MatrixLimits 4 matrix },
    ghost gained: { MatrixLimits 2 gains },
    ghost calm: { GustLimits centres radii },
}

/// A channel's six numbers in order, each with its range.
fn channel_numbers(channel: Channel) -> [Ranged; 6]
    ensures { result ≡ channel_numbers channel }
{
    let [a, b, c, d] = row_numbers(channel.gains);
    let centre = Ranged::within(channel.centre, 16777216);
    let radius = Ranged::up_to(channel.radius, 16777216);
    [a, b, c, d, centre, radius]
}

/// The two channels' gains by parts.
fn by_parts(first: [i64; 4], second: [i64; 4]) -> [[i64; 2]; 4]
    ensures { result ≡ by_parts first second }
{
    // Written out: of arrays within an array that `from_fn` makes, the proof stays open.
    [
        [first[0], second[0]],
        [first[1], second[1]],
        [first[2], second[2]],
        [first[3], second[3]],
    ]
}

impl Model {
    /// The model of these numbers; or the place of the first out of range, in the order of A's
    /// rows and then for each channel its four gains, its centre and its radius; or the place of
    /// the first radius that is too large with its centre.
    pub fn new(matrix: [[i64; 4]; 4], first: Channel, second: Channel) -> Result<Model, Refusal>
        ensures value { MatchResult result (λ m. (model_refusal matrix first second ≡ None) × (m.matrix ≡ matrix) × (m.gains ≡ by_parts first.gains second.gains) × (m.centres ≡ first.centre ∷ (second.centre ∷ [])) × (m.radii ≡ first.radius ∷ (second.radius ∷ []))) (λ e. model_refusal matrix first second ≡ Some (number e, place e)) }
        ensures limits { Exactly (model_refusal matrix first second ≡ None) (ModelLimits matrix (by_parts first.gains second.gains) (first.centre ∷ (second.centre ∷ [])) (first.radius ∷ (second.radius ∷ []))) }
    {
        check_matrix(matrix)?;
        check_ranges(&channel_numbers(first), 16)?;
        check_ranges(&channel_numbers(second), 22)?;
        check_sum(first.centre, first.radius, 16777216, 22)?;
        check_sum(second.centre, second.radius, 16777216, 28)?;
        Ok(Model {
            matrix,
            gains: by_parts(first.gains, second.gains),
            centres: [first.centre, second.centre],
            radii: [first.radius, second.radius],
        })
    }

    pub fn matrix(&self) -> [[i64; 4]; 4]
        ensures { result ≡ self.now.matrix }
    {
        self.matrix
    }

    pub fn gains(&self) -> [[i64; 2]; 4]
        ensures { result ≡ self.now.gains }
    {
        self.gains
    }

    pub fn centres(&self) -> [i64; 2]
        ensures { result ≡ self.now.centres }
    {
        self.centres
    }

    pub fn radii(&self) -> [i64; 2]
        ensures { result ≡ self.now.radii }
    {
        self.radii
    }
}
