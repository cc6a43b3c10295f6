//! Checked values from plain numbers.
ghost use Rattle.std.specs.Prelude.{◌≡◌, ℕ, ◌<◌, ◌≤◌, [], ◌∷◌, pos, IfOk, if◌then◌else◌, MatchResult, nat_eq};
ghost use Rattle.arith.specs.Sums.{entry};
ghost use Rattle.dynamics.specs.Refusals.{by_parts};

use domains::axis::SignedAxis;
use dynamics::channel::Channel;
use dynamics::direction::Direction;
use dynamics::keep_out::KeepOut;
use dynamics::model::Model;
use dynamics::refusal::Refusal;
use dynamics::start::Start;
use std::test::Fail;

/// The loop that keeps every state where it is.
pub fn identity() -> [[i64; 4]; 4]
    ensures { (i j : ℕ) → i < 4 → j < 4 → entry result i j ≡ (if nat_eq i j then pos 4096 else pos 0) }
{
    [
        [4096, 0, 0, 0],
        [0, 4096, 0, 0],
        [0, 0, 4096, 0],
        [0, 0, 0, 4096],
    ]
}

pub fn channel(gains: [i64; 4], centre: i64, radius: i64) -> Channel
    ensures { (result.gains ≡ gains) × (result.centre ≡ centre) × (result.radius ≡ radius) }
{
    Channel {
        gains,
        centre,
        radius,
    }
}

pub fn model(matrix: [[i64; 4]; 4], first: Channel, second: Channel) -> Result<Model, Fail>
    ensures { IfOk result (λ m. (m.matrix ≡ matrix) × (m.gains ≡ by_parts first.gains second.gains) × (m.centres ≡ first.centre ∷ second.centre ∷ []) × (m.radii ≡ first.radius ∷ second.radius ∷ [])) }
{
    Ok(Model::new(matrix, first, second)?)
}

/// A model without gusts.
pub fn calm(matrix: [[i64; 4]; 4]) -> Result<Model, Fail>
    ensures { IfOk result (λ m. (m.matrix ≡ matrix) × (m.radii ≡ pos 0 ∷ pos 0 ∷ [])) }
{
    model(matrix, channel([0; 4], 0, 0), channel([0; 4], 0, 0))
}

pub fn start(centres: [i64; 4], radii: [i64; 4]) -> Result<Start, Fail>
    ensures { IfOk result (λ s. (s.centres ≡ centres) × (s.radii ≡ radii)) }
{
    Ok(Start::new(centres, radii)?)
}

pub fn direction(entries: [i64; 4]) -> Result<Direction, Fail>
    ensures { IfOk result (λ d. d.entries ≡ entries) }
{
    Ok(Direction::new(entries)?)
}

pub fn keep_out(entries: [i64; 4], threshold: i64) -> Result<KeepOut, Fail>
    ensures { IfOk result (λ k. (k.direction.entries ≡ entries) × (k.threshold ≡ threshold)) }
{
    Ok(KeepOut::new(entries, threshold)?)
}

pub fn axis(index: usize) -> Result<SignedAxis, Fail>
    ensures { MatchResult result (λ a. a.index ≡ index) (λ _. 8 ≤ index) }
{
    SignedAxis::new(index).ok_or_else(|| Fail::new("no axis has that number"))
}

/// The loop and gusts of the worked plan, for a program: the error is the model's own.
pub fn plan_model() -> Result<Model, Refusal>
    ensures matrix { IfOk result (λ m. m.matrix ≡ (pos 4096 ∷ pos 1024 ∷ pos 0 ∷ pos 0 ∷ []) ∷ (pos 0 ∷ pos 2048 ∷ pos 0 ∷ pos 0 ∷ []) ∷ (pos 0 ∷ pos 0 ∷ pos 0 ∷ pos 0 ∷ []) ∷ (pos 0 ∷ pos 0 ∷ pos 0 ∷ pos 0 ∷ []) ∷ []) }
    ensures gains { IfOk result (λ m. m.gains ≡ (pos 0 ∷ pos 0 ∷ []) ∷ (pos 4096 ∷ pos 0 ∷ []) ∷ (pos 0 ∷ pos 0 ∷ []) ∷ (pos 0 ∷ pos 0 ∷ []) ∷ []) }
    ensures gusts { IfOk result (λ m. (m.centres ≡ pos 0 ∷ pos 0 ∷ []) × (m.radii ≡ pos 4 ∷ pos 0 ∷ [])) }
{
    Model::new(
        [[4096, 1024, 0, 0], [0, 2048, 0, 0], [0; 4], [0; 4]],
        channel([0, 4096, 0, 0], 0, 4),
        channel([0; 4], 0, 0),
    )
}

/// Where the worked plan's runs begin, for a program: the error is the start's own.
pub fn plan_start() -> Result<Start, Refusal>
    ensures { IfOk result (λ s. (s.centres ≡ pos 100 ∷ pos 0 ∷ pos 0 ∷ pos 0 ∷ []) × (s.radii ≡ pos 8 ∷ pos 8 ∷ pos 0 ∷ pos 0 ∷ [])) }
{
    Start::new([100, 0, 0, 0], [8, 8, 0, 0])
}

/// The loop and gusts of the worked plan.
pub fn worked_model() -> Result<Model, Fail>
    ensures { IfOk result (λ m. (m.centres ≡ pos 0 ∷ pos 0 ∷ []) × (m.radii ≡ pos 4 ∷ pos 0 ∷ [])) }
{
    Ok(plan_model()?)
}

/// Where the worked plan's runs begin.
pub fn worked_start() -> Result<Start, Fail>
    ensures { IfOk result (λ s. (s.centres ≡ pos 100 ∷ pos 0 ∷ pos 0 ∷ pos 0 ∷ []) × (s.radii ≡ pos 8 ∷ pos 8 ∷ pos 0 ∷ pos 0 ∷ [])) }
{
    Ok(plan_start()?)
}
