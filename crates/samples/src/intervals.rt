//! Intervals from their ends.
ghost use Rattle.std.specs.Prelude.{◌≡◌, Some};
ghost use Rattle.samples.specs.Intervals as spec;

use domains::enclosure::Interval;

/// What an enclosure is to be: for each part the least and the greatest number.
pub fn intervals(ends: [i64; 8]) -> Option<[Interval; 4]>
    ensures { result ≡ Some (spec.intervals ends) }
{
    Some(std::array::from_fn(|i| Interval {
        low: ends[2 * i],
        high: ends[2 * i + 1],
    }))
}
