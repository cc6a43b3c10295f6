//! The split: two domains of one kind, each of which starts from one half of the start.
ghost use Rattle.std.specs.Prelude.{◌≡◌};
ghost use Rattle.layers.specs.Split as spec;
ghost use Rattle.layers.specs.SplitLaws.{split_lawful};
ghost use Rattle.std.proofs.Common.{rules};

use domains::axis::SignedAxis;
use domains::domain::Domain;
use dynamics::direction::Direction;
use dynamics::model::Model;
use dynamics::start::Start;

/// What either side holds.
#[derive(Clone, Copy, Drop)]
pub struct Split<D> {
    lower: D,
    upper: D,
}

/// The greater bound, absent if one is.
fn greater(lower: Option<i64>, upper: Option<i64>) -> Option<i64>
    ensures { result ≡ spec.greater lower upper }
{
    Some(lower?.max(upper?))
}

impl<D: Domain> Split<D> {
    pub fn new(lower: D, upper: D) -> Split<D>
        ensures lower { result.lower ≡ lower }
        ensures upper { result.upper ≡ upper }
    {
        Split { lower, upper }
    }
}

impl<D: Domain> Domain for Split<D> {
    ghost Form = { D.Domain.Form × D.Domain.Form };

    ghost form = { λ d. (D.Domain.form d.lower, D.Domain.form d.upper) };

    ghost sense = { spec.split D.Domain.sense };

    ghost lawful = { split_lawful D.Domain.lawful };

    ghost kept = { Prim.search rules };

    fn fill(&mut self, start: &Start) {
        let (lower, upper) = start.halves();
        self.lower.fill(&lower);
        self.upper.fill(&upper);
    }

    fn advance(&mut self, model: &Model) {
        self.lower.advance(model);
        self.upper.advance(model);
    }

    fn bound(&self, direction: &Direction) -> Option<i64> {
        let lower = self.lower.bound(direction);
        let upper = self.upper.bound(direction);
        greater(lower, upper)
    }

    fn cut(&mut self, axis: SignedAxis, limit: i64) {
        self.lower.cut(axis, limit);
        self.upper.cut(axis, limit);
    }
}
