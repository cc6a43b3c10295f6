//! One step of a simulated run: a successor that the loop permits.
ghost use Rattle.std.specs.Prelude.{◌≡◌, ℕ, ◌^◌, ◌<◌, ◌≤◌, ◌-ℤ◌, unsigned_abs};
ghost use Rattle.arith.specs.Sums.{part, listed};
ghost use Rattle.dynamics.specs.Runs.{image as image_of, Permitted};
ghost use Rattle.dynamics.specs.Values.{middle, radius};

use super::rounding::rounded;
use arith::kernel::times_column;
use dynamics::model::Model;

/// A x + B d.
fn image(model: &Model, x: [i64; 4], gusts: [i64; 2]) -> [i64; 4]
    requires near { (i : ℕ) → i < 4 → unsigned_abs (part x i) ≤ 2 ^ 39 }
    requires calm { (j : ℕ) → j < 2 → unsigned_abs (part gusts j) ≤ 2 ^ 24 }
    ensures value { result ≡ listed 4 (image_of model.now (part x) (part gusts)) }
    ensures small { (i : ℕ) → i < 4 → unsigned_abs (part result i) ≤ 2 ^ 62 }
{
    let turned = times_column(model.matrix(), x);
    let pushed = times_column(model.gains(), gusts);
    // Written out, here and below: a loop by index over two arrays is no shorter, and with `from_fn`
    // the search alone leaves the range of the sums open.
    [
        turned[0] + pushed[0],
        turned[1] + pushed[1],
        turned[2] + pushed[2],
        turned[3] + pushed[3],
    ]
}

/// The state after `x` under these gusts, each part rounded up or down.
pub fn successor(model: &Model, x: [i64; 4], gusts: [i64; 2], up: [bool; 4]) -> [i64; 4]
    requires near { (i : ℕ) → i < 4 → unsigned_abs (part x i) ≤ 2 ^ 39 }
    requires calm { (j : ℕ) → j < 2 → unsigned_abs (part gusts j -ℤ middle model.now j) ≤ radius model.now j }
    ensures { Permitted model.now (part x) (part result) }
{
    let v = image(model, x, gusts);
    [
        rounded(v[0], up[0]),
        rounded(v[1], up[1]),
        rounded(v[2], up[2]),
        rounded(v[3], up[3]),
    ]
}
