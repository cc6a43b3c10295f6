//! One advance before folding: the images, rounded, with the axis part that takes up what rounding
//! hides.
ghost use Rattle.std.specs.Prelude.{◌≡◌, ◌+◌, ◌^◌, pos};
ghost use Rattle.std.specs.Option.{option_map};
ghost use Rattle.arith.specs.Sums.{part, listed};
ghost use Rattle.dynamics.specs.Rows.{allowance};
ghost use Rattle.dynamics.specs.Values.{loop};
ghost use Rattle.zonotope.specs.Shape.{size};
ghost use Rattle.zonotope.specs.Advance as spec;
ghost use Rattle.zonotope.specs.Spread.{spread_advanced};
ghost use Rattle.zonotope.specs.Foldings.{folding_shape};
ghost use Rattle.zonotope.specs.Forms.{shape_of, parts_of};
ghost use Rattle.zonotope.specs.Ranges.{Counts};

use super::fold::Folding;
use super::images::{images, middle_image};
use super::rounding::{absorbing_axis, round, round_all};
use super::sizes::grown;
use super::spread::carried;
use super::stored::Stored;
use dynamics::model::Model;

/// By parts, the centre's residue, the sum of the vectors' residues, and the row's allowance.
fn remainder(model: &Model, centre: [i64; 4], vectors: [i64; 4]) -> [i64; 4]
    requires centre { Counts (2 ^ 50) centre }
    requires vectors { Counts (2 ^ 50) vectors }
    ensures { result ≡ listed 4 (λ i. pos (size centre i + size vectors i + allowance model.now i)) }
{
    let residues = grown(centre, vectors);
    grown(residues, model.allowances())
}

/// The shape before folding, and its spread.
pub(crate) fn advanced(model: &Model, stored: &Stored) -> Folding
    ensures shape { folding_shape result ≡ spec.advanced model.now (shape_of stored.now) }
    ensures spread { result.spread ≡ option_map (spread_advanced (loop model.now) result.axis) (parts_of stored.now.spread) }
{
    let (centre, centre_residues) = round(middle_image(model, stored));
    let (generators, residues) = round_all(&images(model, stored));
    let radii = absorbing_axis(remainder(model, centre_residues, residues));
    let axis = radii.parts;
    let spread = carried(model, radii, stored.spread);
    Folding {
        centre,
        axis,
        generators,
        spread,
    }
}
