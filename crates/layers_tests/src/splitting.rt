//! The split and the product over several steps.
ghost use Rattle.std.specs.Prelude.{◌≡◌, [], ◌∷◌, pos, negsuc, IfOk};

use domains::domain::Domain;
use domains::enclosure::enclosure;
use domains::interval_box::IntervalBox;
use dynamics::direction::Direction;
use dynamics::model::Model;
use dynamics::start::Start;
use layers::product::ReducedProduct;
use layers::split::Split;
use samples::intervals::intervals;
use samples::values::{channel, direction, model, start};
use std::process::Abort;
use std::test::Fail;
use unbounded::Unbounded;

/// A loop whose rows are not whole, with two channels.
pub(crate) fn sample_model() -> Result<Model, Fail>
    ensures { IfOk result (λ m. (m.centres ≡ pos 5 ∷ negsuc 1 ∷ []) × (m.radii ≡ pos 3 ∷ pos 9 ∷ [])) }
{
    let matrix = [
        [4000, -300, 17, 0],
        [250, 3900, -5, 1],
        [0, -4096, 8192, 0],
        [7, 0, 0, -2048],
    ];
    let first = channel([10, 0, 4096, 1], 5, 3);
    let second = channel([-3, 4096, -8192, 1], -2, 9);
    model(matrix, first, second)
}

pub(crate) fn sample_start() -> Result<Start, Fail>
    ensures { IfOk result (λ s. s.radii ≡ pos 10 ∷ pos 7 ∷ pos 10 ∷ pos 5 ∷ []) }
{
    start([1000, -2000, 30, 0], [10, 7, 10, 5])
}

pub(crate) fn sample_direction() -> Result<Direction, Fail>
    ensures { IfOk result (λ d. d.entries ≡ pos 3 ∷ negsuc 1 ∷ pos 0 ∷ pos 5 ∷ []) }
{
    direction([3, -2, 0, 5])
}

/// Two steps of a domain against what they should enclose.
pub(crate) fn check_steps<D: Domain>(rt: &impl Abort, domain: &mut D) -> Result<(), Fail> {
    let model = sample_model()?;
    domain.fill(&sample_start()?);
    assert_eq!(rt;
        enclosure(domain),
        intervals([990, 1010, -2007, -1993, 20, 40, -5, 5])
    );
    domain.advance(&model);
    assert_eq!(rt;
        enclosure(domain),
        intervals([1112, 1134, -1862, -1829, 2021, 2117, -1, 5])
    );
    assert_eq!(rt; domain.bound(&sample_direction()?), Some(7149));
    Ok(())
}

#[test]
fn a_split_is_the_union_of_its_halves(rt: HostRuntime) -> Result<(), Fail> {
    let mut set = Split::new(IntervalBox::new(), IntervalBox::new());
    assert_eq!(rt; enclosure(&set), None);
    check_steps(&rt, &mut set)?;
    let model = sample_model()?;
    set.advance(&model);
    assert_eq!(rt;
        enclosure(&set),
        intervals([1228, 1253, -1719, -1667, 5859, 6126, -1, 3])
    );
    assert_eq!(rt; set.bound(&sample_direction()?), Some(7210));
    set.advance(&model);
    assert_eq!(rt; set.bound(&sample_direction()?), Some(7298));
    Ok(())
}

#[test]
fn an_unbounded_side_leaves_the_other(rt: HostRuntime) -> Result<(), Fail> {
    let mut left = ReducedProduct::new(
        Split::new(IntervalBox::new(), IntervalBox::new()),
        Unbounded,
    );
    assert_eq!(rt; enclosure(&left), None);
    check_steps(&rt, &mut left)?;
    let mut right = ReducedProduct::new(
        Unbounded,
        Split::new(IntervalBox::new(), IntervalBox::new()),
    );
    check_steps(&rt, &mut right)
}

#[test]
fn both_sides_unbounded(rt: HostRuntime) -> Result<(), Fail> {
    let mut set = ReducedProduct::new(Unbounded, Unbounded);
    set.fill(&sample_start()?);
    assert_eq!(rt; enclosure(&set), None);
    Ok(())
}

#[test]
fn one_unbounded_half_is_enough(rt: HostRuntime) -> Result<(), Fail> {
    let model = model(
        [[4096, 0, 0, 0], [0; 4], [0; 4], [0; 4]],
        channel([4096, 0, 0, 0], 1, 0),
        channel([0; 4], 0, 0),
    )?;
    let mut set = Split::new(IntervalBox::new(), IntervalBox::new());
    set.fill(&start([1073741800, 0, 0, 0], [24, 0, 0, 0])?);
    assert_eq!(rt;
        enclosure(&set),
        intervals([1073741776, 1073741824, 0, 0, 0, 0, 0, 0])
    );
    set.advance(&model);
    assert_eq!(rt; enclosure(&set), None);
    Ok(())
}
