//! A domain that is always unbounded: the crudest that the interface admits. It stands outside the
//! supplied domains, and shows that others can be written against the interface alone.
#![tactic(auto)]

ghost use Rattle.std.specs.Prelude.{◌≡◌};
ghost use Rattle.unbounded.specs.Everything.{everything};
ghost use Rattle.std.proofs.Common.{rules};

use domains::axis::SignedAxis;
use domains::domain::Domain;
use dynamics::direction::Direction;
use dynamics::model::Model;
use dynamics::start::Start;

/// It holds every state, and has no bound.
#[derive(Clone, Copy)]
pub struct Unbounded;

impl Domain for Unbounded {
    ghost Form = { Unit {0} };

    ghost form = { λ _. tt };

    ghost sense = { everything };

    ghost lawful = { Prim.search rules };

    ghost kept = { Prim.search rules };

    fn fill(&mut self, _start: &Start) {}

    fn advance(&mut self, _model: &Model) {}

    fn bound(&self, _direction: &Direction) -> Option<i64> {
        None
    }

    fn cut(&mut self, _axis: SignedAxis, _limit: i64) {}
}
