//! One trial: a plan, directions, keep-outs and simulated runs.
ghost use Rattle.std.specs.Prelude.{◌≡◌, IfOk, vec_len};
ghost use Rattle.trials.specs.Permitted.{AllPermitted};

use super::kind::Kind;
use super::random::Random;
use super::sample::{draw_direction, draw_keep_out, draw_model, draw_start};
use super::trouble::Trouble;
use super::walk::Walk;
use domains::axis::SignedAxis;
use dynamics::direction::Direction;
use dynamics::keep_out::KeepOut;
use dynamics::model::Model;
use dynamics::start::Start;
use std::alloc::Global;

/// How many steps are followed.
pub const STEPS: usize = 12;
/// How many runs are simulated.
pub const RUNS: usize = 8;
/// How many directions are drawn besides the signed axes.
pub const DRAWN: usize = 4;
/// How many keep-outs are watched.
pub const KEEP_OUTS: usize = 4;

#[derive(Drop)]
pub struct Case {
    pub model: Model,
    pub start: Start,
    pub directions: Vec<Direction>,
    pub keep_outs: Vec<KeepOut>,
    pub walks: Vec<Walk>,
    ghost twelve: { vec_len directions ≡ 12 },
    ghost eight: { vec_len walks ≡ 8 },
}

/// The signed axes as directions.
fn axes(heap: Global) -> Result<Vec<Direction>, Trouble>
    ensures { IfOk result (λ v. vec_len v ≡ 8) }
{
    let mut directions = Vec::new(heap);
    for axis in SignedAxis::all() {
        directions.push(axis.direction())?;
    }
    Ok(directions)
}

/// The signed axes, and some directions more.
fn draw_directions(heap: Global, random: &mut Random) -> Result<Vec<Direction>, Trouble>
    ensures { IfOk result (λ v. vec_len v ≡ 12) }
{
    let mut directions = axes(heap)?;
    for _ in 0..DRAWN {
        directions.push(draw_direction(random)?)?;
    }
    Ok(directions)
}

/// The keep-outs that are watched.
fn draw_keep_outs(heap: Global, start: &Start, random: &mut Random) -> Result<Vec<KeepOut>, Trouble>
    ensures { IfOk result (λ v. vec_len v ≡ 4) }
{
    let mut keep_outs = Vec::new(heap);
    for _ in 0..KEEP_OUTS {
        keep_outs.push(draw_keep_out(start, random)?)?;
    }
    Ok(keep_outs)
}

/// Runs of a plan, every other one steady.
fn draw_walks(
    heap: Global,
    model: &Model,
    start: &Start,
    random: &mut Random,
) -> Result<Vec<Walk>, Trouble>
    ensures { IfOk result (λ v. (vec_len v ≡ 8) × AllPermitted model.now start.now v.items) }
{
    let mut walks = Vec::new(heap);
    for n in 0..RUNS {
        walks.push(Walk::draw(heap, model, start, random, n % 2 == 0, STEPS)?)?;
    }
    Ok(walks)
}

impl Case {
    /// A plan of a kind, with directions, keep-outs and runs that the model permits from the start.
    pub fn draw(heap: Global, kind: Kind, random: &mut Random) -> Result<Case, Trouble>
        ensures { IfOk result (λ c. AllPermitted c.model c.start c.walks.items) }
    {
        let model = draw_model(random, kind)?;
        let start = draw_start(random, kind)?;
        Ok(Case {
            model,
            start,
            directions: draw_directions(heap, random)?,
            keep_outs: draw_keep_outs(heap, &start, random)?,
            walks: draw_walks(heap, &model, &start, random)?,
        })
    }
}
