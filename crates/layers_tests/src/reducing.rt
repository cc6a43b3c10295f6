//! The reduced product of zonotope and interval box against its sides.
ghost use Rattle.std.specs.Prelude.{◌≡◌, None};
ghost use Rattle.domains.specs.Axes.{axis};
ghost use Rattle.domains.specs.Enclosure.{enclosed};

use domains::domain::Domain;
use domains::enclosure::{Interval, enclosure};
use domains::interval_box::IntervalBox;
use dynamics::model::Model;
use dynamics::start::Start;
use layers::product::ReducedProduct;
use samples::intervals::intervals;
use samples::values::{calm, channel, identity, model, start};
use std::test::Fail;
use zonotope::zonotope::Zonotope;

/// What a domain encloses after a number of steps.
fn after<D: Domain>(
    domain: &mut D,
    model: &Model,
    start: &Start,
    steps: u8,
) -> Option<[Interval; 4]>
    ensures { result ≡ enclosed (λ a. D.sense.bounded (axis a) (D.form domain.new)) }
{
    domain.fill(start);
    for _ in 0..steps {
        domain.advance(model);
    }
    enclosure(domain)
}

/// A new product of zonotope and box.
fn product() -> ReducedProduct<Zonotope, IntervalBox>
    ensures { (result.left.stored ≡ None) × (result.right.limits ≡ None) }
{
    ReducedProduct::new(Zonotope::new(), IntervalBox::new())
}

#[test]
fn each_side_is_tighter_somewhere(rt: HostRuntime) -> Result<(), Fail> {
    let matrix = [
        [-3982, 2720, -1443, 142],
        [-4070, 919, -2425, 3379],
        [-1646, 3288, 1048576, -2199],
        [2258, -825, -1900, -357],
    ];
    let model = model(
        matrix,
        channel([-574, 1970, -3088, 4012], 7, 3),
        channel([1834, -2193, -876, -3400], -2, 8),
    )?;
    let start = start([40, 78, -4, -41], [7, 3, 1, 9])?;
    assert_eq!(rt;
        after(&mut Zonotope::new(), &model, &start, 2),
        intervals([169, 419, 366, 768, -315722, -175916, 323, 613])
    );
    assert_eq!(rt;
        after(&mut IntervalBox::new(), &model, &start, 2),
        intervals([165, 423, 369, 766, -315232, -176663, 319, 617])
    );
    assert_eq!(rt;
        after(&mut product(), &model, &start, 1),
        intervals([-3, 25, -71, -27, -1231, -690, 4, 36])
    );
    assert_eq!(rt;
        after(&mut product(), &model, &start, 2),
        intervals([169, 419, 369, 766, -315232, -176663, 323, 613])
    );
    Ok(())
}

#[test]
fn an_unbounded_zonotope_leaves_the_box(rt: HostRuntime) -> Result<(), Fail> {
    let model = model(
        identity(),
        channel([1, 0, 0, 0], 0, 0),
        channel([0; 4], 0, 0),
    )?;
    let start = start([1073741824, 0, 0, 0], [0, 5, 0, 0])?;
    assert_eq!(rt; after(&mut Zonotope::new(), &model, &start, 1), None);
    assert_eq!(rt;
        after(&mut product(), &model, &start, 1),
        intervals([1073741824, 1073741824, -5, 5, 0, 0, 0, 0])
    );
    Ok(())
}

#[test]
fn the_zonotope_keeps_the_box_bounded(rt: HostRuntime) -> Result<(), Fail> {
    let model = calm([[2896, 2896, 0, 0], [-2896, 2896, 0, 0], [0; 4], [0; 4]])?;
    let start = start([0; 4], [536870912, 536870912, 0, 0])?;
    assert_eq!(rt; after(&mut IntervalBox::new(), &model, &start, 3), None);
    assert_eq!(rt;
        after(&mut product(), &model, &start, 3),
        intervals([-759006854, 759006854, -759006854, 759006854, 0, 0, 0, 0])
    );
    Ok(())
}
