//! Rounding of the images at the fixed point, and what it hides.
ghost use Rattle.std.specs.Prelude.{◌≡◌, ◌+◌, ◌/◌, ◌^◌, map, pos};
ghost use Rattle.arith.specs.Rounding.{residue};
ghost use Rattle.arith.specs.Sums.{part, listed};
ghost use Rattle.zonotope.specs.Shape.{size};
ghost use Rattle.zonotope.specs.Advance as spec;
ghost use Rattle.zonotope.specs.Forms.{standing};
ghost use Rattle.zonotope.specs.Ranges.{Counts};

use super::generators::{Generators, push};
use super::sizes::grown;
use super::stored::Radii;
use arith::rounding::{down, near};

/// Each entry's nearest whole number, and its residue.
pub(crate) fn round(vector: [i64; 4]) -> ([i64; 4], [i64; 4])
    ensures nearest { result.0 ≡ spec.rounded vector }
    ensures residues { result.1 ≡ listed 4 (λ i. pos (residue (part vector i))) }
{
    let rounded = vector.map(near);
    (
        rounded.map(|(nearest, _)| nearest),
        rounded.map(|(_, residue)| residue),
    )
}

/// The images rounded, and the sums of their residues by parts.
pub(crate) fn round_all(images: &Generators) -> (Generators, [i64; 4])
    ensures list { standing result.0 ≡ map spec.rounded (standing images.now) }
    ensures residues { result.1 ≡ listed 4 (λ i. pos (spec.residues (standing images.now) i)) }
{
    let mut rounded = Generators::new([0; 4]);
    let mut sums = [0; 4];
    for image in images.as_slice() {
        let (nearest, residues) = round(*image);
        push(&mut rounded, nearest);
        // The borrow checker does not cover a call whose result is put into the array at once.
        let total = grown(sums, residues);
        sums = total;
    }
    (rounded, sums)
}

/// The axis part that takes up a remainder: each number plus 4095, rounded down.
pub(crate) fn absorbing_axis(remainder: [i64; 4]) -> Radii
    requires { Counts (2 ^ 30) remainder }
    ensures { result.parts ≡ listed 4 (λ i. pos ((size remainder i + 4095) / 4096)) }
{
    Radii {
        parts: std::array::from_fn(|i| down(remainder[i] + 4095)),
    }
}
