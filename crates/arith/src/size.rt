//! The sizes of numbers, whatever their sign.
ghost use Rattle.std.specs.Prelude.{◌≡◌, ℕ, ◌^◌, ◌<◌, pos, nat_le, unsigned_abs};
ghost use Rattle.std.specs.Int.{cast_signed, w64};
ghost use Rattle.std.specs.List.{list_all};
ghost use Rattle.arith.specs.Sums.{part, listed};

/// The size of each number. That of -2^63 alone does not fit, and is -2^63 again.
pub fn sizes<const N: usize>(numbers: [i64; N]) -> [i64; N]
    ensures value { result ≡ listed N (λ i. cast_signed w64 (unsigned_abs (part numbers.entry i))) }
    ensures exact { ((i : ℕ) → i < N → unsigned_abs (part numbers.entry i) < 2 ^ 63) → result ≡ listed N (λ i. pos (unsigned_abs (part numbers.entry i))) }
{
    // Counted: the check reads no closure in a function that is generic in a number.
    let mut sizes = [0; N];
    for i in 0..N {
        sizes[i] = numbers[i].wrapping_abs();
    }
    sizes
}

/// Whether no number's size passes the limit.
pub fn is_within(numbers: &[i64], limit: u64) -> bool
    ensures { result ≡ list_all (λ z. nat_le (unsigned_abs z) limit) numbers.now }
{
    numbers.iter().all(|z| z.unsigned_abs() <= limit)
}
