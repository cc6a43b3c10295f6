//! Whole steps: the worked plan, and a loop that brings 22 generators before folding.
ghost use Rattle.std.specs.Prelude.{◌≡◌, [], ◌∷◌, pos, negsuc, IfOk};

use super::shown::check_generators;
use domains::domain::Domain;
use dynamics::model::Model;
use samples::values::{axis, channel, direction, model, start, worked_model, worked_start};
use std::test::Fail;
use zonotope::zonotope::Zonotope;

/// A loop of which no row is whole.
fn dense() -> Result<Model, Fail>
    ensures { IfOk result (λ m. (m.centres ≡ pos 10 ∷ negsuc 6 ∷ []) × (m.radii ≡ pos 25 ∷ pos 40 ∷ [])) }
{
    model(
        [
            [4000, 700, -300, 0],
            [-650, 3900, 0, 120],
            [90, 0, 3000, -800],
            [5, -60, 700, 3500],
        ],
        channel([300, 0, -1200, 64], 10, 25),
        channel([-20, 900, 7, 0], -7, 40),
    )
}

#[test]
fn the_worked_plan(rt: HostRuntime) -> Result<(), Fail> {
    let mut zonotope = Zonotope::new();
    zonotope.fill(&worked_start()?);
    assert_eq!(rt; zonotope.centre(), Some([100, 0, 0, 0]));
    assert_eq!(rt; zonotope.axis_part(), Some([8, 8, 0, 0]));
    check_generators(&rt, &zonotope, &[]);
    assert_eq!(rt; zonotope.spread(), Some([0; 4]));
    zonotope.advance(&worked_model()?);
    assert_eq!(rt; zonotope.centre(), Some([100, 0, 0, 0]));
    assert_eq!(rt; zonotope.axis_part(), Some([1, 1, 0, 0]));
    check_generators(
        &rt,
        &zonotope,
        &[
            [8, 0, 0, 0],
            [2, 4, 0, 0],
            [0, 0, 0, 0],
            [0, 0, 0, 0],
            [0, 4, 0, 0],
            [0, 0, 0, 0],
        ],
    );
    assert_eq!(rt; zonotope.spread(), Some([2, 2, 0, 0]));
    let ahead = direction([1, 0, 0, 0])?;
    assert_eq!(rt; zonotope.bound(&ahead), Some(111));
    assert_eq!(rt; zonotope.allowance(&ahead), Some(2));
    Ok(())
}

#[test]
fn sixteen_of_twenty_two_are_kept(rt: HostRuntime) -> Result<(), Fail> {
    let begin = start([1000, -2000, 300, 0], [50, 60, 70, 80])?;
    let zonotope = Zonotope::after(&dense()?, &begin, 4);
    assert_eq!(rt; zonotope.centre(), Some([-485, -1876, 31, 201]));
    assert_eq!(rt; zonotope.axis_part(), Some([8, 19, 11, 12]));
    assert_eq!(rt; zonotope.spread(), Some([58, 48, 40, 43]));
    check_generators(
        &rt,
        &zonotope,
        &[
            [37, -28, 2, 2],
            [36, 40, 2, -2],
            [-12, 5, 12, 23],
            [7, 5, -30, 32],
            [2, 0, -2, -2],
            [4, 7, 0, 0],
            [2, 0, -3, -2],
            [3, 8, 0, 0],
            [5, -2, 0, 0],
            [2, 4, 0, 0],
            [2, 0, -5, -1],
            [10, -2, 0, 0],
            [2, 13, 0, 0],
            [0, 0, 4, 1],
            [0, 0, -1, 4],
            [2, 0, -7, 0],
        ],
    );
    let slanted = direction([3, -5, 0, 1])?;
    assert_eq!(rt; zonotope.bound(&direction([1, 0, 0, 0])?), Some(-351));
    assert_eq!(rt; zonotope.bound(&slanted), Some(8886));
    assert_eq!(rt; zonotope.allowance(&slanted), Some(457));
    Ok(())
}

#[test]
fn a_fifth_step(rt: HostRuntime) -> Result<(), Fail> {
    let begin = start([1000, -2000, 300, 0], [50, 60, 70, 80])?;
    let zonotope = Zonotope::after(&dense()?, &begin, 5);
    assert_eq!(rt; zonotope.centre(), Some([-796, -1705, -30, 204]));
    assert_eq!(rt; zonotope.axis_part(), Some([17, 17, 19, 21]));
    assert_eq!(rt; zonotope.spread(), Some([86, 73, 57, 61]));
    assert_eq!(rt; zonotope.generator(0), Some([31, -32, 2, 3]));
    assert_eq!(rt; zonotope.generator(15), Some([-1, 0, 8, 2]));
    assert_eq!(rt; zonotope.generator(16), None);
    let slanted = direction([3, -5, 0, 1])?;
    assert_eq!(rt; zonotope.bound(&slanted), Some(7129));
    assert_eq!(rt; zonotope.allowance(&slanted), Some(684));
    Ok(())
}

#[test]
fn a_cut_changes_nothing(rt: HostRuntime) -> Result<(), Fail> {
    let mut zonotope = Zonotope::new();
    zonotope.fill(&worked_start()?);
    zonotope.cut(axis(0)?, 95);
    assert_eq!(rt; zonotope.bound(&direction([1, 0, 0, 0])?), Some(108));
    Ok(())
}
