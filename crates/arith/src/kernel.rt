//! Products with vectors, the 4×4 loop matrix and the 4×2 gust matrix, all passed by value. `N` is
//! the number of the matrix's columns: 4 for the loop, 2 for the gusts.
//! Each entry of a result is the product's true value wherever that value fits 64 bits; beyond it
//! is reduced modulo 2^64. The limits of a model, a direction and a domain's numbers keep within.
ghost use Rattle.std.specs.Prelude.{◌≡◌, ℕ, ◌<◌, ℤ, ◌*ℤ◌, FitsSigned};
ghost use Rattle.std.specs.Int.{int_wrap, w64};
ghost use Rattle.arith.specs.Sums.{part, entry, listed, sum};
ghost use Rattle.arith.specs.Products.{dot, row_times, times_column};

/// The scalar product of two vectors.
pub fn product<const N: usize>(l: [i64; N], x: [i64; N]) -> i64
    ensures value { result ≡ int_wrap w64 (sum N (λ i. part l.entry i *ℤ part x.entry i)) }
    ensures exact { FitsSigned w64 (sum N (λ i. part l.entry i *ℤ part x.entry i)) → result ≡ sum N (λ i. part l.entry i *ℤ part x.entry i) }
{
    let mut sum = 0i64;
    for (a, b) in l.iter().zip(&x) {
        sum = sum.wrapping_add(a.wrapping_mul(*b));
    }
    sum
}

/// Column `j` of a matrix.
fn column<const N: usize>(m: [[i64; N]; 4], j: usize) -> [i64; 4]
    requires { j < N }
    ensures { result ≡ listed 4 (λ i. entry m.entry i j) }
{
    // Written out, as the rows below: the check reads no closure in a function that is generic in a
    // number.
    [m[0][j], m[1][j], m[2][j], m[3][j]]
}

/// A row times a matrix.
pub fn row_times<const N: usize>(l: [i64; 4], m: [[i64; N]; 4]) -> [i64; N]
    ensures value { result ≡ listed N (λ j. int_wrap w64 (row_times (part l) (entry m.entry) j)) }
    ensures exact { ((j : ℕ) → j < N → FitsSigned w64 (row_times (part l) (entry m.entry) j)) → result ≡ listed N (row_times (part l) (entry m.entry)) }
    ensures through { (x : ℕ → ℤ) → dot (part l) (times_column N (entry m.entry) x) ≡ sum N (λ j. row_times (part l) (entry m.entry) j *ℤ x j) }
{
    // Counted: the check reads no closure in a function that is generic in a number.
    let mut row = [0; N];
    for j in 0..N {
        row[j] = product(l, column(m, j));
    }
    row
}

/// A matrix times a column.
pub fn times_column<const N: usize>(m: [[i64; N]; 4], x: [i64; N]) -> [i64; 4]
    ensures value { result ≡ listed 4 (λ i. int_wrap w64 (times_column N (entry m.entry) (part x.entry) i)) }
    ensures exact { ((i : ℕ) → i < 4 → FitsSigned w64 (times_column N (entry m.entry) (part x.entry) i)) → result ≡ listed 4 (times_column N (entry m.entry) (part x.entry)) }
{
    [
        product(m[0], x),
        product(m[1], x),
        product(m[2], x),
        product(m[3], x),
    ]
}
