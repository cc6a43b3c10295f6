//! How far a zonotope reaches: in a direction, and in each part.
ghost use Rattle.std.specs.Prelude.{◌≡◌, pos};
ghost use Rattle.arith.specs.Sums.{listed};
ghost use Rattle.dynamics.specs.Values.{along};
ghost use Rattle.zonotope.specs.Shape.{reaches, extent};
ghost use Rattle.zonotope.specs.Domain.{narrow};
ghost use Rattle.zonotope.specs.Foldings.{folding_shape};
ghost use Rattle.zonotope.specs.Forms.{standing};

use super::fold::Folding;
use super::sizes::grown;
use super::stored::Stored;
use arith::kernel::product;
use arith::size::is_within;
use dynamics::direction::Direction;

/// The sum of the sizes of a direction's products with the generators.
pub(crate) fn reach(direction: &Direction, stored: &Stored) -> i64
    ensures { result ≡ pos (reaches (along direction.now) (standing stored.now.generators)) }
{
    let entries = direction.entries();
    let mut sum = 0;
    for generator in stored.generators.as_slice() {
        sum += product(entries, *generator).abs();
    }
    sum
}

/// By parts, the sizes of centre, axis part and all generators' entries.
pub(crate) fn extents(folding: &Folding) -> [i64; 4]
    ensures { result ≡ listed 4 (λ i. pos (extent (folding_shape folding.now) i)) }
{
    let mut sums = grown(folding.axis, folding.centre);
    for generator in folding.generators.as_slice() {
        // The borrow checker does not cover a call whose result is put into the array at once.
        let total = grown(sums, *generator);
        sums = total;
    }
    sums
}

/// Whether none of four numbers of at least 0 passes 2^30.
pub(crate) fn is_narrow(counts: [i64; 4]) -> bool
    ensures { result ≡ narrow counts }
{
    is_within(&counts, 1073741824)
}
