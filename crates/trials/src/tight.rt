//! The zonotope's bounds against the exact support number.
ghost use Rattle.std.specs.Prelude.{◌≡◌, ◌^◌, IsTrue, pos, ◌+ℤ◌, ◌*ℤ◌, IfSome};
ghost use Rattle.dynamics.specs.Values.{along};
ghost use Rattle.dynamics.specs.Support.{exact as exact_of};
ghost use Rattle.arith.specs.Sums.{listed};
ghost use Rattle.trials.specs.Counts.{total};
ghost use Rattle.trials.specs.Verdicts.{TightBound, TightAnswer};

use super::case::Case;
use super::exact::{exact, scale};
use super::marks::Marks;
use domains::domain::Domain;
use dynamics::direction::Direction;
use zonotope::zonotope::Zonotope;

/// How many steps are compared; the exact support numbers of tame plans then fit 128 bits.
pub const COMPARED: u32 = 5;

/// Whether a bound after `k` steps is at least the exact support number and exceeds it by no more
/// than the allowance; absent where a number does not fit.
fn is_between(k: u32, exact: i128, bound: i64, allowance: i64) -> Option<bool>
    ensures { IfSome result (λ b. IsTrue b → TightBound k exact bound allowance) }
{
    let unit = scale(k)?;
    let scaled = unit.checked_mul(i128::from(bound))?;
    let slack = unit.checked_mul(i128::from(allowance))?;
    let most = exact.checked_add(slack)?;
    Some(exact <= scaled && scaled <= most)
}

/// The entries of a direction as wide numbers.
fn widened(direction: &Direction) -> [i128; 4]
    ensures { result ≡ listed 4 (along direction.now) }
{
    direction.entries().map(|entry| i128::from(entry))
}

/// Whether a bound and an allowance after `k` steps of a case are tight in a direction; absent
/// where one of them is.
fn is_tight(
    case: &Case,
    k: u32,
    direction: &Direction,
    bound: Option<i64>,
    allowance: Option<i64>,
) -> Option<bool>
    ensures { IfSome result (λ b. (IsTrue b → TightAnswer k (exact_of case.now.model case.now.start k (along direction.now)) bound allowance)) }
{
    let exact = exact(&case.model, &case.start, k, widened(direction))?;
    is_between(k, exact, bound?, allowance?)
}

/// The bounds of a zonotope after `k` steps in each direction.
fn check_directions(zonotope: &Zonotope, case: &Case, k: u32) -> Marks
    ensures { total result ≡ 12 }
{
    let mut marks = Marks::default();
    for direction in case.directions.iter() {
        let bound = zonotope.bound(direction);
        let allowance = zonotope.allowance(direction);
        marks.mark(is_tight(case, k, direction, bound, allowance));
    }
    marks
}

/// The zonotope of a case, followed for the compared steps: 6 sets in 12 directions.
pub fn check_tight(case: &Case) -> Marks
    ensures { total result ≡ 72 }
{
    let mut zonotope = Zonotope::new();
    zonotope.fill(&case.start);
    let mut marks = check_directions(&zonotope, case, 0);
    for k in 1..=COMPARED {
        zonotope.advance(&case.model);
        marks += check_directions(&zonotope, case, k);
    }
    marks
}
