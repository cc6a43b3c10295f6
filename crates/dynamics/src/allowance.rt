//! What the rounding of each row may hide: nothing where the row is whole.
ghost use Rattle.std.specs.Prelude.{◌≡◌, ◌&&◌, pos};
ghost use Rattle.std.specs.List.{list_all};
ghost use Rattle.arith.specs.Sums.{part, listed, every};
ghost use Rattle.dynamics.specs.Rows.{multiple, allowed, allowance};

use super::model::Model;
use std::array;

/// Whether a number is divisible by 4096.
fn is_multiple(z: i64) -> bool
    ensures { result ≡ multiple z }
{
    z.unsigned_abs() % 4096 == 0
}

/// Whether every number is divisible by 4096.
fn all_multiples(numbers: &[i64]) -> bool
    ensures { result ≡ list_all multiple numbers.now }
{
    numbers.iter().all(|z| is_multiple(*z))
}

/// Whether every entry of a row of A and of B is divisible by 4096.
fn is_whole(a: [i64; 4], b: [i64; 2]) -> bool
    ensures { result ≡ (every 4 (λ j. multiple (part a j)) && every 2 (λ j. multiple (part b j))) }
{
    all_multiples(&a) && all_multiples(&b)
}

/// The allowance of one row.
fn row_allowance(a: [i64; 4], b: [i64; 2]) -> i64
    ensures { result ≡ pos (allowed (every 4 (λ j. multiple (part a j)) && every 2 (λ j. multiple (part b j)))) }
{
    if is_whole(a, b) { 0 } else { 4095 }
}

impl Model {
    /// The allowances of the four rows: 0 for a whole row, 4095 for any other.
    pub fn allowances(&self) -> [i64; 4]
        ensures { result ≡ listed 4 (λ i. pos (allowance self.now i)) }
    {
        let a = self.matrix();
        let b = self.gains();
        array::from_fn(|i| row_allowance(a[i], b[i]))
    }
}
