//! The reduced product: two domains side by side, each cut by the other's bounds.
ghost use Rattle.std.specs.Prelude.{◌≡◌};
ghost use Rattle.layers.specs.Product as spec;
ghost use Rattle.layers.specs.ProductLaws.{product_lawful};
ghost use Rattle.std.proofs.Common.{rules};

use domains::axis::SignedAxis;
use domains::domain::Domain;
use dynamics::direction::Direction;
use dynamics::model::Model;
use dynamics::start::Start;

/// What both sides hold.
#[derive(Clone, Copy, Drop)]
pub struct ReducedProduct<P, Q> {
    left: P,
    right: Q,
}

/// The lesser present bound, absent if both are.
fn lesser(left: Option<i64>, right: Option<i64>) -> Option<i64>
    ensures { result ≡ spec.lesser left right }
{
    match (left, right) {
        (Some(x), Some(y)) => Some(x.min(y)),
        (bound, None) | (None, bound) => bound,
    }
}

impl<P: Domain, Q: Domain> ReducedProduct<P, Q> {
    pub fn new(left: P, right: Q) -> ReducedProduct<P, Q>
        ensures left { result.left ≡ left }
        ensures right { result.right ≡ right }
    {
        ReducedProduct { left, right }
    }

    /// Cuts both sides by the lesser bound on an axis, as they answer it now.
    fn narrow(&mut self, axis: SignedAxis)
        ensures { (P.Domain.form self.new.left, Q.Domain.form self.new.right) ≡ spec.narrowed P.Domain.sense Q.Domain.sense axis (P.Domain.form self.old.left, Q.Domain.form self.old.right) }
    {
        let direction = axis.direction();
        let bound = lesser(self.left.bound(&direction), self.right.bound(&direction));
        if let Some(least) = bound {
            self.left.cut(axis, least);
            self.right.cut(axis, least);
        }
    }

    /// Narrows both sides on the signed axes 0 to 7, in order.
    fn reduce(&mut self)
        ensures { (P.Domain.form self.new.left, Q.Domain.form self.new.right) ≡ spec.reduced P.Domain.sense Q.Domain.sense (P.Domain.form self.old.left, Q.Domain.form self.old.right) }
    {
        for axis in SignedAxis::all() {
            self.narrow(axis);
        }
    }
}

impl<P: Domain, Q: Domain> Domain for ReducedProduct<P, Q> {
    ghost Form = { P.Domain.Form × Q.Domain.Form };

    ghost form = { λ d. (P.Domain.form d.left, Q.Domain.form d.right) };

    ghost sense = { spec.product P.Domain.sense Q.Domain.sense };

    ghost lawful = { product_lawful P.Domain.lawful Q.Domain.lawful };

    ghost kept = { Prim.search rules };

    fn fill(&mut self, start: &Start) {
        self.left.fill(start);
        self.right.fill(start);
        self.reduce();
    }

    fn advance(&mut self, model: &Model) {
        self.left.advance(model);
        self.right.advance(model);
        self.reduce();
    }

    fn bound(&self, direction: &Direction) -> Option<i64> {
        let left = self.left.bound(direction);
        let right = self.right.bound(direction);
        lesser(left, right)
    }

    fn cut(&mut self, axis: SignedAxis, limit: i64) {
        self.left.cut(axis, limit);
        self.right.cut(axis, limit);
    }
}
