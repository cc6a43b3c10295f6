//! Numbers against their ranges, and the first that lies outside.
ghost use Rattle.std.specs.Prelude.{◌≡◌, ◌+◌, ◌^◌, ◌<◌, ◌≤◌, true, false, length, Some, None, MatchResult, unsigned_abs};
ghost use Rattle.dynamics.specs.Ranges.{within, up_to, outside, first_outside, matrix_rows, joined, row_numbers, too_large};
ghost use Rattle.dynamics.specs.Refusals.{number, place as place_of, ranged};
ghost use Rattle.dynamics.specs.declared.refusal.Refusal.TheVariants as refusal;

use super::refusal::Refusal;

/// A number and the range that it is to lie in.
#[derive(Clone, Copy)]
pub(crate) struct Ranged {
    value: i64,
    least: i64,
    most: i64,
}

impl Ranged {
    /// A number that is to lie within `±limit`.
    pub(crate) fn within(value: i64, limit: i64) -> Ranged
        requires { unsigned_abs limit ≤ 2 ^ 60 }
        ensures { result ≡ within limit value }
    {
        Ranged {
            value,
            least: -limit,
            most: limit,
        }
    }

    /// A number that is to lie between 0 and `limit`.
    pub(crate) fn up_to(value: i64, limit: i64) -> Ranged
        ensures { result ≡ up_to limit value }
    {
        Ranged {
            value,
            least: 0,
            most: limit,
        }
    }

    fn is_outside(self) -> bool
        ensures { result ≡ outside self }
    {
        self.value < self.least || self.value > self.most
    }
}

/// The place of the first number outside its range, where `before` numbers stand before these.
fn first_outside(numbers: &[Ranged], before: usize) -> Option<usize>
    requires { before + length numbers.now < 2 ^ 60 }
    ensures { result ≡ first_outside before numbers.now }
{
    // No `position`: what is sought is defined by recursion, for which the library has no law.
    for (i, number) in numbers.iter().enumerate() {
        if number.is_outside() {
            return Some(before + i + 1);
        }
    }
    None
}

/// The place of the first entry of the loop matrix outside ±2^20, row by row.
fn first_outside_matrix(matrix: [[i64; 4]; 4]) -> Option<usize>
    ensures { result ≡ first_outside 0 (joined (matrix_rows matrix)) }
{
    // Two loops left by a label: the project fixes this form.
    let mut found = None;
    'rows: for i in 0..4 {
        let row = matrix[i];
        for j in 0..4 {
            if Ranged::within(row[j], 1048576).is_outside() {
                found = Some(4 * i + j + 1);
                break 'rows;
            }
        }
    }
    found
}

/// The four numbers of a row, each to lie within ±2^20.
pub(crate) fn row_numbers(row: [i64; 4]) -> [Ranged; 4]
    ensures { result ≡ row_numbers row }
{
    row.map(|z| Ranged::within(z, 1048576))
}

/// Whether a centre and a radius, each within its range, are too large together.
pub(crate) fn is_too_large(centre: i64, radius: i64, limit: u64) -> bool
    ensures { result ≡ too_large limit centre radius }
{
    u128::from(centre.unsigned_abs()) + u128::from(radius.unsigned_abs()) > u128::from(limit)
}

/// The refusal of the number at a place, where there is one.
fn refused_at(place: Option<usize>) -> Result<(), Refusal>
    ensures { MatchResult result (λ _. place ≡ None) (λ e. ranged place None ≡ Some (number e, place_of e)) }
{
    match place {
        None => Ok(()),
        Some(place) => Err(Refusal::OutOfRange { place }),
    }
}

/// Refuses the first number outside its range, where `before` numbers stand before these.
pub(crate) fn check_ranges(numbers: &[Ranged], before: usize) -> Result<(), Refusal>
    requires { before + length numbers.now < 2 ^ 60 }
    ensures { MatchResult result (λ _. first_outside before numbers.now ≡ None) (λ e. ranged (first_outside before numbers.now) None ≡ Some (number e, place_of e)) }
{
    refused_at(first_outside(numbers, before))
}

/// Refuses the first entry of the loop matrix outside ±2^20, row by row.
pub(crate) fn check_matrix(matrix: [[i64; 4]; 4]) -> Result<(), Refusal>
    ensures { MatchResult result (λ _. first_outside 0 (joined (matrix_rows matrix)) ≡ None) (λ e. ranged (first_outside 0 (joined (matrix_rows matrix))) None ≡ Some (number e, place_of e)) }
{
    refused_at(first_outside_matrix(matrix))
}

/// Refuses a centre and a radius, each within its range, that are too large together.
pub(crate) fn check_sum(centre: i64, radius: i64, limit: u64, place: usize) -> Result<(), Refusal>
    ensures { MatchResult result (λ _. too_large limit centre radius ≡ false) (λ e. (too_large limit centre radius ≡ true) × (e ≡ refusal.TooLarge place)) }
{
    if is_too_large(centre, radius, limit) {
        return Err(Refusal::TooLarge { place });
    }
    Ok(())
}
