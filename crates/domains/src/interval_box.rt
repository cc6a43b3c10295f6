//! The interval box: a limit for each signed axis, or unbounded.
ghost use Rattle.std.specs.Prelude.{◌≡◌, ◌^◌, ◌<◌, ◌≤◌, if◌then◌else◌, None, nat_le, unsigned_abs};
ghost use Rattle.std.specs.Bool.{then_some};
ghost use Rattle.arith.specs.Sums.{listed};
ghost use Rattle.domains.specs.Axes.{unit};
ghost use Rattle.domains.specs.Box as spec;
ghost use Rattle.domains.specs.BoxForms.{limits_of};
ghost use Rattle.domains.specs.BoxLaws.{box_lawful};
ghost use Rattle.std.proofs.Common.{rules};

use super::axis::SignedAxis;
use super::domain::Domain;
use super::limits::Limits;
use super::support::{carried_limit, support};
use arith::size::is_within;
use dynamics::direction::Direction;
use dynamics::model::Model;
use dynamics::start::Start;

/// The greatest size of a limit: 2^30.
const LIMIT: u64 = 1073741824;

/// A box whose limits are absent is unbounded.
#[derive(Clone, Copy)]
pub struct IntervalBox {
    limits: Option<Limits>,
}

impl IntervalBox {
    /// A new box is unbounded.
    pub fn new() -> IntervalBox
        ensures { result.limits ≡ None }
    {
        IntervalBox { limits: None }
    }
}

/// The limit of a start on an axis: ±p + w.
fn start_limit(start: &Start, axis: SignedAxis) -> i64
    ensures { result ≡ spec.start_limit start.now axis.index }
{
    let centres = start.centres();
    let radii = start.radii();
    axis.signed(centres[axis.part()]) + radii[axis.part()]
}

/// The limits of a start on all axes.
fn start_limits(start: &Start) -> Limits
    ensures { result.upper ≡ listed 8 (spec.start_limit start.now) }
{
    let upper = SignedAxis::all().map(|axis| start_limit(start, axis));
    Limits { upper }
}

/// All eight limits after a step, from the old ones.
fn carried_limits(model: &Model, limits: Limits) -> [i64; 8]
    ensures { result ≡ listed 8 (λ a. spec.carried model.now limits.upper (unit a)) }
{
    SignedAxis::all().map(|axis| carried_limit(model, limits, axis))
}

/// The limits, absent where one lies beyond ±2^30.
fn checked(upper: [i64; 8]) -> Option<Limits>
    ensures { limits_of result ≡ then_some (spec.within upper) upper }
{
    // `then` is no plainer: its closure would need a clause that the limits are within.
    if is_within(&upper, LIMIT) {
        Some(Limits { upper })
    } else {
        None
    }
}

/// The limits with the lower of two on one axis; a limit beyond ±2^30 is ignored.
fn lowered(mut limits: Limits, axis: SignedAxis, limit: i64) -> Limits
    ensures { result.upper ≡ (if nat_le (unsigned_abs limit) (2 ^ 30) then spec.lowered axis.index limit limits.upper else limits.upper) }
{
    let index = axis.index();
    if limit.unsigned_abs() <= LIMIT && limit < limits.upper[index] {
        limits.upper[index] = limit;
    }
    limits
}

impl Domain for IntervalBox {
    ghost Form = { spec.Form };

    ghost form = { λ b. limits_of b.limits };

    ghost sense = { spec.box };

    ghost lawful = { box_lawful };

    ghost kept = { Prim.search rules };

    fn fill(&mut self, start: &Start) {
        self.limits = Some(start_limits(start));
    }

    fn advance(&mut self, model: &Model) {
        self.limits = self
            .limits
            .and_then(|limits| checked(carried_limits(model, limits)));
    }

    fn bound(&self, direction: &Direction) -> Option<i64> {
        let limits = self.limits?;
        Some(support(direction.entries(), limits))
    }

    fn cut(&mut self, axis: SignedAxis, limit: i64) {
        self.limits = self.limits.map(|limits| lowered(limits, axis, limit));
    }
}
