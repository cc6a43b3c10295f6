//! All trials of one kind of plans.
ghost use Rattle.std.specs.Prelude.{◌≡◌, IfOk};
ghost use Rattle.trials.specs.Counts.{looked, total};

use super::case::Case;
use super::kind::Kind;
use super::marks::Marks;
use super::random::Random;
use super::refine::check_refined;
use super::stacks::check_stacks;
use super::tally::Tally;
use super::tight::check_tight;
use super::trouble::Trouble;
use super::walk::count_states;
use std::alloc::Global;

/// How many plans of each kind are tried.
pub const PLANS: usize = 200;

/// What was seen of tubes, of tightness and of refinement, and how many states the runs had.
#[derive(Clone, Copy, Default)]
pub struct Outcome {
    pub tally: Tally,
    pub tight: Marks,
    pub refined: Marks,
    pub states: u64,
}

/// Two hundred plans of a kind: 1092 bounds, 72 comparisons for tightness and 312 for refinement each.
pub fn try_kind(heap: Global, kind: Kind, random: &mut Random) -> Result<Outcome, Trouble>
    ensures { IfOk result (λ o. (looked o.tally ≡ 218400) × (total o.tight ≡ 14400) × (total o.refined ≡ 62400)) }
{
    // The generator is lent apart from heap and kind: it outlives them and serves all kinds.
    let mut outcome = Outcome::default();
    for _ in 0..PLANS {
        let case = Case::draw(heap, kind, random)?;
        outcome.tally += check_stacks(&case)?;
        outcome.tight += check_tight(&case);
        outcome.refined += check_refined(&case);
        outcome.states = outcome.states.saturating_add(count_states(&case.walks));
    }
    Ok(outcome)
}
