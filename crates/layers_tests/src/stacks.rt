//! Layers on layers.
ghost use Rattle.std.specs.Prelude.{◌≡◌, None};

use super::splitting::check_steps;
use domains::interval_box::IntervalBox;
use layers::product::ReducedProduct;
use layers::split::Split;
use std::test::Fail;
use unbounded::Unbounded;

type Inner = ReducedProduct<Split<IntervalBox>, Unbounded>;

/// A product of a split of boxes and the unbounded domain, all new.
fn inner() -> Inner
    ensures { (result.left.lower.limits ≡ None) × (result.left.upper.limits ≡ None) }
{
    ReducedProduct::new(
        Split::new(IntervalBox::new(), IntervalBox::new()),
        Unbounded,
    )
}

#[test]
fn a_split_of_products_of_a_split(rt: HostRuntime) -> Result<(), Fail> {
    let mut set = Split::new(inner(), inner());
    check_steps(&rt, &mut set)
}
