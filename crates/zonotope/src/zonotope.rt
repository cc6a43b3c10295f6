//! The zonotope: a centre, an axis part and at most sixteen generators, or unbounded.
ghost use Rattle.std.specs.Prelude.{◌≡◌, None};
ghost use Rattle.dynamics.specs.Values.{along};
ghost use Rattle.zonotope.specs.Domain as spec;
ghost use Rattle.zonotope.specs.Forms.{form_of};
ghost use Rattle.zonotope.specs.Tight.{Present, Tight, Tightness, after as spec_after};
ghost use Rattle.zonotope.specs.Laws.{zonotope_lawful};
ghost use Rattle.std.proofs.Common.{rules};

use super::sizes::span;
use super::step;
use super::stored::Stored;
use domains::axis::SignedAxis;
use domains::domain::Domain;
use dynamics::direction::Direction;
use dynamics::model::Model;
use dynamics::start::Start;

/// A zonotope of which nothing is stored is unbounded.
#[derive(Clone, Copy)]
pub struct Zonotope {
    stored: Option<Stored>,
}

impl Zonotope {
    /// A new zonotope is unbounded.
    pub fn new() -> Zonotope
        ensures { result.stored ≡ None }
    {
        Zonotope { stored: None }
    }

    /// The zonotope of a start after a number of steps. While the spread is present, the bound in
    /// a whole direction of any size is at least the exact support number, and exceeds it by no
    /// more than the spread's allowance.
    pub fn after(model: &Model, start: &Start, steps: usize) -> Zonotope
        ensures form { form_of result.stored ≡ spec_after model.now start.now steps }
        ensures tight { Present (form_of result.stored) (Tight model.now start.now steps) }
    {
        let mut zonotope = Zonotope::new();
        zonotope.fill(start);
        for _ in 0..steps {
            zonotope.advance(model);
        }
        zonotope
    }

    /// The centre, absent where it is unbounded.
    pub fn centre(&self) -> Option<[i64; 4]>
        ensures { result ≡ spec.form_centre (form_of self.now.stored) }
    {
        Some(self.stored?.centre)
    }

    /// The axis part, absent where it is unbounded.
    pub fn axis_part(&self) -> Option<[i64; 4]>
        ensures { result ≡ spec.form_axis (form_of self.now.stored) }
    {
        Some(self.stored?.axis.parts)
    }

    /// The generator at a place counted from 0, absent past the last and where it is unbounded.
    pub fn generator(&self, place: usize) -> Option<[i64; 4]>
        ensures { result ≡ spec.form_generator place (form_of self.now.stored) }
    {
        self.stored?.generators.get(place)
    }

    /// The spread, where it is present.
    pub fn spread(&self) -> Option<[i64; 4]>
        ensures { result ≡ spec.form_spread (form_of self.now.stored) }
    {
        Some(self.stored?.spread?.parts)
    }

    /// The spread's allowance in a direction, where the spread is present. After any number of
    /// advances since a fill the bound exceeds the exact support number by no more, and is never
    /// below it; that holds in whole directions of any size.
    #[tactic(auto, using(crate::specs::Laws::tightness))]
    pub fn allowance(&self, direction: &Direction) -> Option<i64>
        ensures value { result ≡ spec.spread_answer (along direction.now) (spec.form_spread (form_of self.now.stored)) }
        ensures tight { Tightness }
    {
        Some(span(direction.entries(), self.stored?.spread?))
    }
}

impl Domain for Zonotope {
    ghost Form = { spec.Form };

    ghost form = { λ z. form_of z.stored };

    ghost sense = { spec.zonotope };

    ghost lawful = { zonotope_lawful };

    ghost kept = { Prim.search rules };

    fn fill(&mut self, start: &Start) {
        self.stored = Some(step::begun(start));
    }

    fn advance(&mut self, model: &Model) {
        // no `and_then`: an unbounded set would be copied over itself
        if let Some(stored) = self.stored {
            self.stored = step::advance(model, &stored);
        }
    }

    fn bound(&self, direction: &Direction) -> Option<i64> {
        Some(step::bound(&self.stored?, direction))
    }

    fn cut(&mut self, _axis: SignedAxis, _limit: i64) {}
}
