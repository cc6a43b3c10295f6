//! All signed axes.
ghost use Rattle.std.specs.Prelude.{◌≡◌, ◌<◌};
ghost use Rattle.domains.specs.AllAxes.{all_axes};

use super::SignedAxis;
use std::array;

impl SignedAxis {
    /// The eight axes in order.
    pub fn all() -> [SignedAxis; 8]
        ensures { result ≡ all_axes }
    {
        array::from_fn(
            |index|
                requires { index < 8 }
            { SignedAxis { index } },
        )
    }
}
