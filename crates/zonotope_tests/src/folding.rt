//! Folding of (3, -5, 0, 1), of weight 4: each fold adds (3, 5, 0, 1) to the axis part and
//! (6, 0, 0, 2) to the spread.
ghost use Rattle.std.specs.Prelude.{◌≡◌, IfOk};
ghost use Rattle.dynamics.specs.declared.model.Model.{Model};
ghost use Rattle.dynamics.specs.declared.start.Start.{Start};
ghost use Rattle.zonotope.specs.Forms.{form_of};
ghost use Rattle.zonotope.specs.Tight.{after};

use super::shown::check_generators;
use domains::domain::Domain;
use samples::values::{channel, direction, identity, model, start};
use std::test::Fail;
use zonotope::zonotope::Zonotope;

/// The identity, with the same two gust columns in each step: (3, -5, 0, 1), and one of weight 30.
/// From the first step on each adds four zero vectors, which are folded first.
fn repeated(steps: usize) -> Result<Zonotope, Fail>
    ensures { IfOk result (λ z. ((m : Model) × (s : Start) × (form_of z.stored ≡ after m s steps))) }
{
    let still = model(
        identity(),
        channel([12288, -20480, 0, 4096], 0, 1),
        channel([40960; 4], 0, 1),
    )?;
    Ok(Zonotope::after(&still, &start([0; 4], [0; 4])?, steps))
}

#[test]
fn sixteen_stand_unfolded(rt: HostRuntime) -> Result<(), Fail> {
    let zonotope = repeated(8)?;
    assert_eq!(rt; zonotope.axis_part(), Some([0; 4]));
    assert_eq!(rt; zonotope.spread(), Some([0; 4]));
    assert_eq!(rt; zonotope.generator(0), Some([3, -5, 0, 1]));
    assert_eq!(rt; zonotope.generator(15), Some([10; 4]));
    assert_eq!(rt; zonotope.bound(&direction([1, 0, 0, 0])?), Some(104));
    Ok(())
}

#[test]
fn the_two_earliest_of_equals_are_folded(rt: HostRuntime) -> Result<(), Fail> {
    let zonotope = repeated(9)?;
    assert_eq!(rt; zonotope.axis_part(), Some([6, 10, 0, 2]));
    assert_eq!(rt; zonotope.spread(), Some([12, 0, 0, 4]));
    check_generators(
        &rt,
        &zonotope,
        &[
            [10, 10, 10, 10],
            [10, 10, 10, 10],
            [3, -5, 0, 1],
            [10, 10, 10, 10],
            [3, -5, 0, 1],
            [10, 10, 10, 10],
            [3, -5, 0, 1],
            [10, 10, 10, 10],
            [3, -5, 0, 1],
            [10, 10, 10, 10],
            [3, -5, 0, 1],
            [10, 10, 10, 10],
            [3, -5, 0, 1],
            [10, 10, 10, 10],
            [3, -5, 0, 1],
            [10, 10, 10, 10],
        ],
    );
    assert_eq!(rt; zonotope.bound(&direction([1, 0, 0, 0])?), Some(117));
    Ok(())
}
