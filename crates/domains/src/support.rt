//! How far a box reaches: the support function of its limits, and what gusts and rounding add.
ghost use Rattle.std.specs.Prelude.{◌≡◌, ◌+◌, ◌*◌, ◌<◌, pos, ◌+ℤ◌, ◌*ℤ◌, unsigned_abs};
ghost use Rattle.arith.specs.Sums.{part, sum, total, listed};
ghost use Rattle.dynamics.specs.Values.{middle, radius};
ghost use Rattle.domains.specs.Axes.{unit};
ghost use Rattle.domains.specs.Box as box;
ghost use Rattle.domains.specs.Gains.{GainLimits};

use super::axis::SignedAxis;
use super::limits::Limits;
use arith::kernel::{product, row_times};
use arith::rounding::down;
use arith::size::sizes;
use dynamics::model::Model;
use std::array;

/// Of two limits the one on the axis with the entry's sign.
fn side(entry: i64, upper: i64, lower: i64) -> i64
    ensures { result ≡ box.side entry upper lower }
{
    if entry >= 0 { upper } else { lower }
}

/// The limits on the axes with the signs of a direction's entries.
fn sides(direction: [i64; 4], u: [i64; 8]) -> [i64; 4]
    ensures { result ≡ listed 4 (λ i. box.side (part direction i) (part u (2 * i)) (part u (2 * i + 1))) }
{
    array::from_fn(|i| side(direction[i], u[2 * i], u[2 * i + 1]))
}

/// The greatest product of a direction with a state of the box.
pub(crate) fn support(direction: [i64; 4], limits: Limits) -> i64
    requires { GainLimits 4 direction }
    ensures { result ≡ box.support (part direction) limits.upper }
{
    product(sizes(direction), sides(direction, limits.upper))
}

/// The most that the gusts add, by what each channel adds for its gust.
fn gust_reach(model: &Model, gains: [i64; 2]) -> i64
    requires { GainLimits 2 gains }
    ensures { result ≡ sum 2 (λ j. part gains j *ℤ middle model.now j) +ℤ pos (total 2 (λ j. unsigned_abs (part gains j) * radius model.now j)) }
{
    product(gains, model.centres()) + product(sizes(gains), model.radii())
}

/// The limit on an axis after a step.
pub(crate) fn carried_limit(model: &Model, limits: Limits, axis: SignedAxis) -> i64
    ensures { result ≡ box.carried model.now limits.upper (unit axis.index) }
{
    let unit = axis.unit();
    let reach = support(row_times(unit, model.matrix()), limits);
    let gusts = gust_reach(model, row_times(unit, model.gains()));
    let allowance = model.allowances()[axis.part()];
    down(reach + gusts + allowance)
}
