//! The limits of size and spread, each exactly met and passed by one.
ghost use Rattle.std.specs.Prelude.{◌≡◌, [], ◌∷◌, pos, IfOk, slice_index_or};
ghost use Rattle.dynamics.specs.declared.start.Start.{Start};
ghost use Rattle.zonotope.specs.Forms.{form_of};
ghost use Rattle.zonotope.specs.Tight.{after};

use domains::domain::Domain;
use dynamics::model::Model;
use samples::values::{calm, channel, direction, identity, model, start};
use std::test::Fail;
use zonotope::zonotope::Zonotope;

#[test]
fn a_new_zonotope_is_unbounded(rt: HostRuntime) -> Result<(), Fail> {
    let mut zonotope = Zonotope::new();
    zonotope.advance(&calm([[0; 4]; 4])?);
    assert_eq!(rt; zonotope.centre(), None);
    assert_eq!(rt; zonotope.axis_part(), None);
    assert_eq!(rt; zonotope.generator(0), None);
    assert_eq!(rt; zonotope.spread(), None);
    assert_eq!(rt; zonotope.allowance(&direction([1, 0, 0, 0])?), None);
    assert_eq!(rt; zonotope.bound(&direction([1, 0, 0, 0])?), None);
    Ok(())
}

/// One still step from 2^30 - 1 with radius 1, under a gust of this radius.
fn still(radius: i64) -> Result<Zonotope, Fail>
    ensures { IfOk result (λ z. ((m : Model) × (s : Start) × (form_of z.stored ≡ after m s 1))) }
{
    let model = model(
        identity(),
        channel([4096, 0, 0, 0], 0, radius),
        channel([0; 4], 0, 0),
    )?;
    let begin = start([1073741823, 0, 0, 0], [1, 0, 0, 0])?;
    Ok(Zonotope::after(&model, &begin, 1))
}

#[test]
fn the_size_limit_is_met(rt: HostRuntime) -> Result<(), Fail> {
    let zonotope = still(0)?;
    assert_eq!(rt; zonotope.centre(), Some([1073741823, 0, 0, 0]));
    assert_eq!(rt; zonotope.bound(&direction([1, 0, 0, 0])?), Some(1073741824));
    Ok(())
}

#[test]
fn one_more_is_unbounded_until_filled(rt: HostRuntime) -> Result<(), Fail> {
    let mut zonotope = still(1)?;
    let ahead = direction([1, 0, 0, 0])?;
    assert_eq!(rt; zonotope.bound(&ahead), None);
    assert_eq!(rt; zonotope.spread(), None);
    zonotope.advance(&calm([[0; 4]; 4])?);
    assert_eq!(rt; zonotope.bound(&ahead), None);
    zonotope.fill(&start([5, 0, 0, 0], [2, 0, 0, 0])?);
    assert_eq!(rt; zonotope.bound(&ahead), Some(7));
    assert_eq!(rt; zonotope.spread(), Some([0; 4]));
    Ok(())
}

/// A state of zeros under loops of which the first hides something by rounding, and the others
/// carry that on: the spread is then (4608334, 3, 2, 0).
fn widened() -> Result<Zonotope, Fail> {
    let mut zonotope = Zonotope::new();
    zonotope.fill(&start([0; 4], [0; 4])?);
    zonotope.advance(&calm([[1, 0, 0, 0], [0, 1, 0, 0], [0, 0, 1, 0], [0; 4]])?);
    zonotope.advance(&carried([0, 0, 143360, 0], [1, 0, 0, 0])?);
    zonotope.advance(&carried([1048576, 0, 163840, 0], [0, 4096, 0, 0])?);
    zonotope.advance(&carried([1048576, 0, 684032, 0], [0, 4096, 0, 0])?);
    Ok(zonotope)
}

/// Two rows of choice, the third part kept, the fourth zero.
fn carried(first: [i64; 4], second: [i64; 4]) -> Result<Model, Fail>
    ensures { IfOk result (λ m. (slice_index_or m.matrix 0 [] ≡ first) × (slice_index_or m.matrix 1 [] ≡ second) × (m.radii ≡ pos 0 ∷ pos 0 ∷ [])) }
{
    calm([first, second, [0, 0, 4096, 0], [0; 4]])
}

#[test]
fn the_spread_limit_is_met(rt: HostRuntime) -> Result<(), Fail> {
    let mut zonotope = widened()?;
    assert_eq!(rt; zonotope.spread(), Some([4608334, 3, 2, 0]));
    zonotope.advance(&carried([954368, 0, 4096, 0], [0, 4096, 0, 0])?);
    assert_eq!(rt; zonotope.spread(), Some([1073741824, 3, 2, 0]));
    assert_eq!(rt;
        zonotope.allowance(&direction([1048576, 1, 0, 0])?),
        Some(1125899906842627)
    );
    Ok(())
}

#[test]
fn one_more_is_absent_until_filled(rt: HostRuntime) -> Result<(), Fail> {
    let mut zonotope = widened()?;
    zonotope.advance(&carried([954368, 4096, 0, 0], [0, 4096, 0, 0])?);
    let ahead = direction([1, 0, 0, 0])?;
    assert_eq!(rt; zonotope.spread(), None);
    assert_eq!(rt; zonotope.allowance(&ahead), None);
    assert_eq!(rt; zonotope.bound(&ahead), Some(536870912));
    zonotope.advance(&calm([[0; 4]; 4])?);
    assert_eq!(rt; zonotope.spread(), None);
    assert_eq!(rt; zonotope.bound(&ahead), Some(0));
    zonotope.fill(&start([0; 4], [0; 4])?);
    assert_eq!(rt; zonotope.spread(), Some([0; 4]));
    Ok(())
}
