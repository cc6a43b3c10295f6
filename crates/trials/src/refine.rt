//! The reduced product's bounds against those of its sides, each followed by itself.
ghost use Rattle.std.specs.Prelude.{◌≡◌, ◌*◌, ◌^◌, ◌≤◌, length};
ghost use Rattle.trials.specs.Counts.{total};
ghost use Rattle.trials.specs.Verdicts.{refined};

use super::case::{Case, STEPS};
use super::marks::Marks;
use super::stacks::zonotope_and_box;
use domains::domain::Domain;
use domains::interval_box::IntervalBox;
use dynamics::direction::Direction;
use zonotope::zonotope::Zonotope;

/// Whether the product's bound is present and not above a side's, where that is present.
fn is_refined(product: Option<i64>, side: Option<i64>) -> Option<bool>
    ensures { result ≡ refined product side }
{
    let side = side?;
    Some(product.is_some_and(|product| product <= side))
}

/// A product against its two sides in each direction.
fn compare<P: Domain, Q: Domain, R: Domain>(
    product: &P,
    left: &Q,
    right: &R,
    directions: &[Direction],
) -> Marks
    requires { length directions.now ≤ 2 ^ 20 }
    ensures { total result ≡ 2 * length directions.now }
{
    let mut marks = Marks::default();
    for direction in directions {
        let bound = product.bound(direction);
        marks.mark(is_refined(bound, left.bound(direction)));
        marks.mark(is_refined(bound, right.bound(direction)));
    }
    marks
}

/// The reduced product of a case and its sides, followed for all steps: 13 sets in 12 directions
/// against two sides.
pub fn check_refined(case: &Case) -> Marks
    ensures { total result ≡ 312 }
{
    let mut product = zonotope_and_box();
    let mut left = Zonotope::new();
    let mut right = IntervalBox::new();
    product.fill(&case.start);
    left.fill(&case.start);
    right.fill(&case.start);
    let mut marks = compare(&product, &left, &right, &case.directions);
    for _ in 0..STEPS {
        product.advance(&case.model);
        left.advance(&case.model);
        right.advance(&case.model);
        marks += compare(&product, &left, &right, &case.directions);
    }
    marks
}
