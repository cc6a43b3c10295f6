//! The halves of a start.
use samples::values::start;
use std::process::Abort;
use std::test::Fail;

/// Centres and radii of the two halves, which have the same radii.
fn check_halves(
    rt: &impl Abort,
    centres: [i64; 4],
    radii: [i64; 4],
    lower: [i64; 4],
    upper: [i64; 4],
    halved: [i64; 4],
) -> Result<(), Fail> {
    let (a, b) = start(centres, radii)?.halves();
    assert_eq!(rt; a.centres(), lower);
    assert_eq!(rt; b.centres(), upper);
    assert_eq!(rt; a.radii(), halved);
    assert_eq!(rt; b.radii(), halved);
    Ok(())
}

#[test]
fn an_odd_radius_is_rounded_up(rt: HostRuntime) -> Result<(), Fail> {
    check_halves(
        &rt,
        [0, 5, 5, 0],
        [3, 1, 2, 0],
        [-1, 5, 5, 0],
        [1, 5, 5, 0],
        [2, 1, 2, 0],
    )
}

#[test]
fn the_first_of_equals_is_halved(rt: HostRuntime) -> Result<(), Fail> {
    check_halves(
        &rt,
        [0, 5, 5, 0],
        [1, 3, 3, 3],
        [0, 4, 5, 0],
        [0, 6, 5, 0],
        [1, 2, 3, 3],
    )?;
    check_halves(
        &rt,
        [0, 0, 9, 0],
        [0, 2, 2, 0],
        [0, -1, 9, 0],
        [0, 1, 9, 0],
        [0, 1, 2, 0],
    )
}

#[test]
fn below_two_both_are_the_whole(rt: HostRuntime) -> Result<(), Fail> {
    check_halves(
        &rt,
        [7, 7, 7, 7],
        [1, 0, 1, 1],
        [7, 7, 7, 7],
        [7, 7, 7, 7],
        [1, 0, 1, 1],
    )?;
    check_halves(
        &rt,
        [7, 7, 7, 7],
        [0; 4],
        [7, 7, 7, 7],
        [7, 7, 7, 7],
        [0; 4],
    )
}

#[test]
fn the_widest_start(rt: HostRuntime) -> Result<(), Fail> {
    let most = 1073741824;
    check_halves(
        &rt,
        [0, 0, 0, 0],
        [0, 0, 0, most],
        [0, 0, 0, -536870912],
        [0, 0, 0, 536870912],
        [0, 0, 0, 536870912],
    )?;
    check_halves(
        &rt,
        [0, 0, 1, 0],
        [0, 0, most - 1, 0],
        [0, 0, -536870910, 0],
        [0, 0, 536870912, 0],
        [0, 0, 536870912, 0],
    )
}
