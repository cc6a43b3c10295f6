//! The interval box over several steps.
ghost use Rattle.std.specs.Prelude.{◌≡◌, IfOk, None};
ghost use Rattle.dynamics.specs.declared.start.Start.{Start};
ghost use Rattle.domains.specs.Box as box;
ghost use Rattle.domains.specs.BoxForms.{limits_of};

use domains::domain::Domain;
use domains::enclosure::enclosure;
use domains::interval_box::IntervalBox;
use samples::intervals::intervals;
use samples::values::{axis, channel, direction, identity, model, start};
use std::test::Fail;
use unbounded::Unbounded;

/// A box filled with the start of these numbers.
fn filled(centres: [i64; 4], radii: [i64; 4]) -> Result<IntervalBox, Fail>
    ensures { IfOk result (λ d. ((s : Start) × (s.centres ≡ centres) × (s.radii ≡ radii) × (limits_of d.limits ≡ box.filled s None))) }
{
    let mut filled = IntervalBox::new();
    filled.fill(&start(centres, radii)?);
    Ok(filled)
}

#[test]
fn three_steps(rt: HostRuntime) -> Result<(), Fail> {
    let matrix = [
        [4000, -300, 17, 0],
        [250, 3900, -5, 1],
        [0, -4096, 8192, 0],
        [7, 0, 0, -2048],
    ];
    let model = model(
        matrix,
        channel([10, 0, 4096, 1], 5, 3),
        channel([-3, 4096, -8192, 1], -2, 9),
    )?;
    let mut set = filled([1000, -2000, 30, 0], [10, 0, 7, 5])?;
    assert_eq!(rt;
        enclosure(&set),
        intervals([990, 1010, -2000, -2000, 23, 37, -5, 5])
    );
    set.advance(&model);
    assert_eq!(rt;
        enclosure(&set),
        intervals([1113, 1133, -1855, -1835, 2034, 2104, -1, 5])
    );
    set.advance(&model);
    assert_eq!(rt;
        enclosure(&set),
        intervals([1229, 1252, -1712, -1673, 5891, 6093, -1, 3])
    );
    set.advance(&model);
    assert_eq!(rt;
        enclosure(&set),
        intervals([1347, 1374, -1574, -1516, 13443, 13928, 0, 3])
    );
    assert_eq!(rt; set.bound(&direction([3, -2, 0, 5])?), Some(7285));
    assert_eq!(rt;
        set.bound(&direction([-1048576, 1048576, -1, 0])?),
        Some(-3002086531)
    );
    Ok(())
}

#[test]
fn a_limit_of_two_to_the_thirty_is_kept(rt: HostRuntime) -> Result<(), Fail> {
    let still = channel([0; 4], 0, 0);
    let mut set = filled([1073741824, 0, 0, 0], [0; 4])?;
    set.advance(&model(identity(), still, still)?);
    assert_eq!(rt;
        enclosure(&set),
        intervals([1073741824, 1073741824, 0, 0, 0, 0, 0, 0])
    );
    let mut pushed = filled([1073741823, 0, 0, 0], [1, 0, 0, 0])?;
    pushed.advance(&model(identity(), channel([4096, 0, 0, 0], -1, 1), still)?);
    assert_eq!(rt;
        enclosure(&pushed),
        intervals([1073741820, 1073741824, 0, 0, 0, 0, 0, 0])
    );
    Ok(())
}

#[test]
fn a_limit_beyond_makes_it_unbounded_until_fill(rt: HostRuntime) -> Result<(), Fail> {
    let still = channel([0; 4], 0, 0);
    let loops = model(identity(), channel([4096, 0, 0, 0], 1, 0), still)?;
    let mut set = filled([1073741824, 0, 0, 0], [0; 4])?;
    set.advance(&loops);
    assert_eq!(rt; enclosure(&set), None);
    set.advance(&model([[0; 4]; 4], still, still)?);
    assert_eq!(rt; enclosure(&set), None);
    set.fill(&start([1, 2, 3, 4], [0, 1, 0, 0])?);
    assert_eq!(rt; enclosure(&set), intervals([1, 1, 1, 3, 3, 3, 4, 4]));
    Ok(())
}

#[test]
fn cuts(rt: HostRuntime) -> Result<(), Fail> {
    let plus_one = axis(0)?;
    let minus_two = axis(3)?;
    let mut set = filled([0, 0, 0, 0], [10, 10, 0, 0])?;
    set.cut(plus_one, 4);
    set.cut(plus_one, 5);
    set.cut(minus_two, 7);
    assert_eq!(rt; enclosure(&set), intervals([-10, 4, -7, 10, 0, 0, 0, 0]));
    set.cut(plus_one, -1073741825);
    assert_eq!(rt; enclosure(&set), intervals([-10, 4, -7, 10, 0, 0, 0, 0]));
    set.cut(plus_one, -1073741824);
    assert_eq!(rt;
        enclosure(&set),
        intervals([-10, -1073741824, -7, 10, 0, 0, 0, 0])
    );
    let mut new = IntervalBox::new();
    new.cut(plus_one, 0);
    assert_eq!(rt; enclosure(&new), None);
    Ok(())
}

#[test]
fn an_unbounded_domain_is_one_too(rt: HostRuntime) -> Result<(), Fail> {
    let mut set = Unbounded;
    set.fill(&start([1, 2, 3, 4], [0; 4])?);
    assert_eq!(rt; enclosure(&set), None);
    Ok(())
}
