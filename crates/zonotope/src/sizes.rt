//! Sums of the sizes of vectors' entries, part by part.
ghost use Rattle.std.specs.Prelude.{◌≡◌, ◌^◌, pos};
ghost use Rattle.arith.specs.Products.{spanned};
ghost use Rattle.arith.specs.Sums.{part};
ghost use Rattle.zonotope.specs.Shape.{size};
ghost use Rattle.zonotope.specs.Fold as spec;
ghost use Rattle.zonotope.specs.Ranges.{Counts, Entries};

use super::stored::Radii;
use arith::kernel::product;
use arith::size::sizes;

/// Four numbers of at least 0, each grown by the size of a vector's entry.
pub(crate) fn grown(counts: [i64; 4], vector: [i64; 4]) -> [i64; 4]
    requires counts { Counts (2 ^ 61) counts }
    requires entries { Entries (2 ^ 61) vector }
    ensures { result ≡ spec.grown counts vector }
{
    std::array::from_fn(|i| counts[i] + vector[i].abs())
}

/// How far a box of these radii reaches along a vector: the sum of the sizes of the vector's
/// entries, each times its radius.
pub(crate) fn span(vector: [i64; 4], radii: Radii) -> i64
    requires { Entries (2 ^ 20) vector }
    ensures { result ≡ pos (spanned (part vector) (size radii.parts)) }
{
    product(sizes(vector), radii.parts)
}
