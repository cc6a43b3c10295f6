//! Values for the tests.
ghost use Rattle.std.specs.Prelude.{◌≡◌, [], ◌∷◌, pos, IfOk};

use dynamics::keep_out::KeepOut;
use dynamics::model::Model;
use samples::values::{channel, keep_out, model};
use std::test::Fail;

/// The loop of a matrix under gusts of radius `radius` on part 2.
pub(crate) fn gusty(matrix: [[i64; 4]; 4], radius: i64) -> Result<Model, Fail>
    ensures { IfOk result (λ m. (m.matrix ≡ matrix) × (m.radii ≡ radius ∷ pos 0 ∷ [])) }
{
    model(
        matrix,
        channel([0, 4096, 0, 0], 0, radius),
        channel([0; 4], 0, 0),
    )
}

/// The keep-out of states whose first part is at least `threshold`.
pub(crate) fn beyond(threshold: i64) -> Result<KeepOut, Fail>
    ensures { IfOk result (λ k. (k.threshold ≡ threshold) × (k.direction.entries ≡ pos 1 ∷ pos 0 ∷ pos 0 ∷ pos 0 ∷ [])) }
{
    keep_out([1, 0, 0, 0], threshold)
}
