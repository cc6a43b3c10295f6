//! The eight limits of a bounded box, each within ±2^30, by signed axis.
ghost use Rattle.std.specs.Prelude.{◌≡◌, ℕ, ◌^◌, ◌<◌, ◌≤◌, length, unsigned_abs};
ghost use Rattle.arith.specs.Sums.{part};

#[derive(Clone, Copy)]
pub(crate) struct Limits {
    pub(crate) upper: [i64; 8],
    ghost eight: { length upper ≡ 8 },
    ghost small: { (a : ℕ) → a < 8 → unsigned_abs (part upper a) ≤ 2 ^ 30 },
}
