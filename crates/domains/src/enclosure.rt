//! The interval of each part that a domain's bounds enclose.
ghost use Rattle.std.specs.Prelude.{◌≡◌, ◌+◌, ◌*◌, ◌<◌};
ghost use Rattle.domains.specs.Axes as axes;
ghost use Rattle.domains.specs.Enclosure as spec;

use super::axis::SignedAxis;
use super::domain::Domain;

/// The numbers from `low` to `high`.
#[derive(Clone, Copy, PartialEq, Eq, Debug)]
pub struct Interval {
    pub low: i64,
    pub high: i64,
}

/// The bound on the axis of a number.
// A number and no enum: the rules number the axes, and a part's two axes are found by it.
fn axis_bound<D: Domain>(domain: &D, axis: usize) -> Option<i64>
    requires { axis < 8 }
    ensures { result ≡ D.sense.bounded (axes.axis axis) (D.form domain.now) }
{
    let axis = SignedAxis::new(axis)?;
    domain.bound(&axis.direction())
}

/// The interval of one part, counted from 0; absent if one of its two bounds is.
fn part_interval<D: Domain>(domain: &D, part: usize) -> Option<Interval>
    requires { part < 4 }
    ensures { result ≡ spec.interval (D.sense.bounded (axes.axis (2 * part + 1)) (D.form domain.now)) (D.sense.bounded (axes.axis (2 * part)) (D.form domain.now)) }
{
    let low = axis_bound(domain, 2 * part + 1)?;
    let high = axis_bound(domain, 2 * part)?;
    Some(Interval { low: -low, high })
}

/// The intervals of the four parts; absent if one of the eight bounds is.
pub fn enclosure<D: Domain>(domain: &D) -> Option<[Interval; 4]>
    ensures { result ≡ spec.enclosed (λ a. D.sense.bounded (axes.axis a) (D.form domain.now)) }
{
    // `try_from_fn` is no plainer: it takes a `Result`, and these are options.
    Some([
        part_interval(domain, 0)?,
        part_interval(domain, 1)?,
        part_interval(domain, 2)?,
        part_interval(domain, 3)?,
    ])
}
