//! Rounding at the fixed point 4096.
ghost use Rattle.std.specs.Prelude.{◌≡◌, ◌≤◌, ℤ, pos, ◌+ℤ◌, ◌-ℤ◌, ◌*ℤ◌, ◌≤ℤ◌, ◌<ℤ◌, unsigned_abs};
ghost use Rattle.arith.specs.Rounding.{floored, nearest, residue};

/// The greatest whole number whose 4096-fold is at most `h`.
pub fn down(h: i64) -> i64
    ensures value { result ≡ floored h }
    ensures low { (pos 4096 *ℤ result) ≤ℤ h }
    ensures high { h <ℤ (pos 4096 *ℤ (result +ℤ pos 1)) }
    ensures greatest { (y : ℤ) → (pos 4096 *ℤ y) ≤ℤ h → y ≤ℤ result }
{
    h.div_euclid(4096)
}

/// The whole number nearest to `u / 4096`, the greater of two, and the residue: how far `u` lies
/// from its 4096-fold.
pub fn near(u: i64) -> (i64, i64)
    ensures quotient { result.0 ≡ nearest u }
    ensures rest { result.1 ≡ pos (residue u) }
    ensures distance { result.1 ≡ pos (unsigned_abs (u -ℤ pos 4096 *ℤ result.0)) }
    ensures half { unsigned_abs result.1 ≤ 2048 }
{
    // A tuple: the project fixes this form.
    let quotient = down(u);
    let remainder = u - 4096 * quotient;
    if remainder < 2048 {
        (quotient, remainder)
    } else {
        (quotient + 1, 4096 - remainder)
    }
}
