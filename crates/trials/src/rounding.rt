//! Roundings that a run may take: the whole number below, or the one above.
ghost use Rattle.std.specs.Prelude.{◌≡◌, ◌^◌, ◌<◌, ◌≤◌, pos, ◌-ℤ◌, ◌*ℤ◌, unsigned_abs};

use arith::rounding::down;

/// `v / 4096` rounded down, or up where it is no whole number.
pub fn rounded(v: i64, up: bool) -> i64
    requires { unsigned_abs v ≤ 2 ^ 62 }
    ensures close { unsigned_abs (pos 4096 *ℤ result -ℤ v) < 4096 }
{
    let low = down(v);
    if up && 4096 * low != v { low + 1 } else { low }
}
