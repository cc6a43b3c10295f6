//! Simulated runs, each of which the loop permits.
ghost use Rattle.std.specs.Prelude.{◌≡◌, ℕ, ◌^◌, ◌<◌, ◌≤◌, map, ◌-ℤ◌, IfOk, unsigned_abs};
ghost use Rattle.arith.specs.Sums.{part};
ghost use Rattle.dynamics.specs.Runs.{Started, Run};
ghost use Rattle.dynamics.specs.Values.{middle, radius};
ghost use Rattle.trials.specs.Seen.{states_of};
ghost use Rattle.trials.specs.Verdicts.{enters_any};
ghost use Rattle.trials.specs.Random.{Drawable};
ghost use Rattle.trials.specs.Walks.{near, state_at};

use super::random::Random;
use super::successor::successor;
use super::verdict::has_entered;
use dynamics::keep_out::KeepOut;
use dynamics::model::Model;
use dynamics::start::Start;
use std::alloc::{AllocError, Global};

/// A run whose state passes this size, 2^39, is not followed further.
const FAR: u64 = 549755813888;

/// The states of a simulated run, from step 0 on.
#[derive(Drop)]
pub struct Walk {
    states: Vec<[i64; 4]>,
}

/// Numbers within radii of centres, each drawn at an end or anywhere.
fn draw_about<const N: usize>(
    random: &mut Random,
    centres: [i64; N],
    radii: [i64; N],
    at_end: bool,
) -> [i64; N]
    requires { (i : ℕ) → i < N → Drawable (part centres i) (part radii i) }
    ensures { (i : ℕ) → i < N → unsigned_abs (part result i -ℤ part centres.entry i) ≤ unsigned_abs (part radii.entry i) }
{
    let mut parts = centres;
    // By index: of what is written through a zip the check knows nothing, and it reads no closure in a
    // function that is generic in a number.
    for i in 0..N {
        parts[i] = random.about(centres[i], radii[i], at_end);
    }
    parts
}

/// A state of the start: at a corner, or anywhere in it.
fn first_state(start: &Start, random: &mut Random, at_end: bool) -> [i64; 4]
    ensures { Started start.now (part result) }
{
    draw_about(random, start.centres(), start.radii(), at_end)
}

/// Gusts of a model: the strongest, or any.
fn draw_gusts(model: &Model, random: &mut Random, at_end: bool) -> [i64; 2]
    ensures { (j : ℕ) → j < 2 → unsigned_abs (part result j -ℤ middle model.now j) ≤ radius model.now j }
{
    draw_about(random, model.centres(), model.radii(), at_end)
}

/// Whether no part of a state passes 2^39.
fn is_near(x: [i64; 4]) -> bool
    ensures { result ≡ near x }
{
    x.iter().all(|part| part.unsigned_abs() <= FAR)
}

impl Walk {
    /// A run of at most `steps` steps. A steady one starts at a corner and keeps to one choice of
    /// strongest gusts and of roundings; any other draws them anew at each step.
    pub fn draw(
        heap: Global,
        model: &Model,
        start: &Start,
        random: &mut Random,
        steady: bool,
        steps: usize,
    ) -> Result<Walk, AllocError>
        ensures { IfOk result (λ w. Run model.now start.now (map part w.states.items)) }
    {
        let mut states = Vec::new(heap);
        let mut x = first_state(start, random, steady);
        let mut gusts = draw_gusts(model, random, steady);
        let mut up = random.roundings();
        states.push(x)?;
        for _ in 0..steps {
            if !is_near(x) {
                break;
            }
            let next = successor(model, x, gusts, up);
            states.push(next)?;
            x = next;
            if !steady {
                gusts = draw_gusts(model, random, false);
                up = random.roundings();
            }
        }
        Ok(Walk { states })
    }

    /// The state at a step, absent where the run was not followed so far.
    pub fn at(&self, step: usize) -> Option<[i64; 4]>
        ensures { result ≡ state_at self.now.states.items step }
    {
        self.states.get(step).copied()
    }

    /// Whether the run enters a keep-out.
    pub fn enters(&self, keep_out: &KeepOut) -> bool
        ensures { result ≡ enters_any keep_out.now self.now.states.items }
    {
        self.states.iter().any(|x| has_entered(keep_out, *x))
    }
}

/// How many states some runs have together.
pub fn count_states(walks: &[Walk]) -> u64
    ensures { result ≡ states_of walks.now }
{
    walks.iter().fold(0, |count: u64, walk| {
        count.saturating_add(walk.states.len() as u64)
    })
}
