//! The exact support number of a plan, as far as it fits 128 bits.
ghost use Rattle.std.specs.Prelude.{◌≡◌, ℕ, ◌^◌, ◌<◌, pos, ◌+ℤ◌, ◌*ℤ◌, IfSome, unsigned_abs};
ghost use Rattle.arith.specs.Sums.{part, entry, listed, sum};
ghost use Rattle.arith.specs.Products.{row_times};
ghost use Rattle.dynamics.specs.Support.{gusts as gusts_of, exact as exact_of};

use dynamics::model::Model;
use dynamics::start::Start;

/// The scalar product of a direction of any size with numbers.
fn product<const N: usize>(l: [i128; N], x: [i64; N]) -> Option<i128>
    ensures { IfSome result (λ z. z ≡ sum N (λ i. part l.entry i *ℤ part x.entry i)) }
{
    // 128 bits and checked: the kernel's product is of 64 bits and wraps. A loop, here and below: the
    // check reads no closure in a function that is generic in a number.
    let mut sum = 0i128;
    for (entry, part) in l.iter().zip(&x) {
        sum = sum.checked_add(entry.checked_mul(i128::from(*part))?)?;
    }
    Some(sum)
}

/// The sizes of a direction's entries.
fn sizes<const N: usize>(l: [i128; N]) -> Option<[i128; N]>
    ensures { IfSome result (λ s. s ≡ listed N (λ i. pos (unsigned_abs (part l.entry i)))) }
{
    let mut sizes = l;
    for size in &mut sizes {
        *size = size.checked_abs()?;
    }
    Some(sizes)
}

/// How far numbers within radii of centres reach in a direction.
fn reach<const N: usize>(l: [i128; N], centres: [i64; N], radii: [i64; N]) -> Option<i128>
    ensures { IfSome result (λ z. z ≡ sum N (λ i. part l.entry i *ℤ part centres.entry i) +ℤ sum N (λ i. pos (unsigned_abs (part l.entry i)) *ℤ part radii.entry i)) }
{
    let middle = product(l, centres)?;
    middle.checked_add(product(sizes(l)?, radii)?)
}

/// A direction times a matrix of four rows.
fn row_times<const N: usize>(l: [i128; 4], a: [[i64; N]; 4]) -> Option<[i128; N]>
    ensures { IfSome result (λ s. s ≡ listed N (row_times (part l) (entry a.entry))) }
{
    let mut products = [0i128; N];
    // The column is written out: a closure over `j` hides the counter from the loop's invariant.
    for j in 0..N {
        products[j] = product(l, [a[0][j], a[1][j], a[2][j], a[3][j]])?;
    }
    Some(products)
}

/// The most that the gusts add in a direction, channel by channel.
fn gust_reach(model: &Model, l: [i128; 4]) -> Option<i128>
    ensures { IfSome result (λ z. z ≡ gusts_of model.now (part l)) }
{
    let [first, second] = row_times(l, model.gains())?;
    let centres = model.centres();
    let radii = model.radii();
    let reached = reach([first], [centres[0]], [radii[0]])?;
    reached.checked_add(reach([second], [centres[1]], [radii[1]])?)
}

/// 4096 to the power `k`.
pub fn scale(k: u32) -> Option<i128>
    ensures { IfSome result (λ z. z ≡ pos (4096 ^ k)) }
{
    4096i128.checked_pow(k)
}

/// The exact support number of `k` steps in a direction.
pub fn exact(model: &Model, start: &Start, k: u32, l: [i128; 4]) -> Option<i128>
    ensures { IfSome result (λ z. z ≡ exact_of model.now start.now k (part l)) }
{
    if k == 0 {
        return reach(l, start.centres(), start.radii());
    }
    let rest = exact(model, start, k - 1, row_times(l, model.matrix())?)?;
    rest.checked_add(scale(k - 1)?.checked_mul(gust_reach(model, l)?)?)
}
