//! The domains and layers that are tried.
ghost use Rattle.std.specs.Prelude.{◌≡◌, IfOk, None};
ghost use Rattle.trials.specs.Counts.{looked};

use super::case::Case;
use super::check::check_domain;
use super::tally::Tally;
use domains::interval_box::IntervalBox;
use layers::product::ReducedProduct;
use layers::split::Split;
use tube::fault::Fault;
use zonotope::zonotope::Zonotope;

/// The reduced product of a zonotope and an interval box.
pub type Product = ReducedProduct<Zonotope, IntervalBox>;

/// A new one: both sides are unbounded.
pub fn zonotope_and_box() -> Product
    ensures { (result.left.stored ≡ None) × (result.right.limits ≡ None) }
{
    ReducedProduct::new(Zonotope::new(), IntervalBox::new())
}

/// A split of two new boxes.
fn split_box() -> Split<IntervalBox>
    ensures { (result.lower.limits ≡ None) × (result.upper.limits ≡ None) }
{
    Split::new(IntervalBox::new(), IntervalBox::new())
}

/// A split of two new products.
fn split_product() -> Split<Product>
    ensures lower { (result.lower.left.stored ≡ None) × (result.lower.right.limits ≡ None) }
    ensures upper { (result.upper.left.stored ≡ None) × (result.upper.right.limits ≡ None) }
{
    Split::new(zonotope_and_box(), zonotope_and_box())
}

/// Each of the seven stacks against the runs of a case.
pub fn check_stacks(case: &Case) -> Result<Tally, Fault>
    ensures { IfOk result (λ t. looked t ≡ 1092) }
{
    Ok(
        check_domain(IntervalBox::new(), case)?
            + check_domain(Zonotope::new(), case)?
            + check_domain(zonotope_and_box(), case)?
            + check_domain(split_box(), case)?
            + check_domain(split_product(), case)?
            + check_domain(Split::new(split_product(), split_product()), case)?
            + check_domain(ReducedProduct::new(split_box(), Zonotope::new()), case)?,
    )
}
