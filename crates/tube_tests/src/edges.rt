//! The limits of watches and steps, no step at all, and tubes that are or become unbounded.
use super::tubes::{beyond, gusty as model};
use domains::interval_box::IntervalBox;
use samples::values::{start, worked_model, worked_start};
use std::test::Fail;
use tube::call::{Call, Reply};
use tube::fault::Fault;
use tube::finding::Finding;
use tube::follow::follow;
use tube::summary::Summary;
use unbounded::Unbounded;

#[test]
fn sixteen_watches(rt: HostRuntime) -> Result<(), Fail> {
    let watches = [beyond(200)?; 17];
    let calls = [Call::Finding(15), Call::Finding(16)];
    let told = follow(
        rt.alloc(),
        worked_model()?,
        worked_start()?,
        IntervalBox::new(),
        &watches,
        &calls,
    )?;
    assert_eq!(rt; told.replies.get(15).copied(), Some(Reply::Watched));
    assert_eq!(rt;
        told.replies.get(16).copied(),
        Some(Reply::Refused(Fault::WatchLimit))
    );
    assert_eq!(rt;
        told.replies.get(17).copied(),
        Some(Reply::Found(Finding::Clear))
    );
    assert_eq!(rt;
        told.replies.get(18).copied(),
        Some(Reply::Refused(Fault::NoKeepOut))
    );
    assert_eq!(rt;
        told.summary,
        Summary {
            steps: 0,
            clear: 16,
            open: 0,
        }
    );
    Ok(())
}

#[test]
fn two_hundred_and_fifty_six_steps(rt: HostRuntime) -> Result<(), Fail> {
    let calls = [Call::Step; 258];
    let told = follow(
        rt.alloc(),
        worked_model()?,
        worked_start()?,
        IntervalBox::new(),
        &[],
        &calls,
    )?;
    assert_eq!(rt; told.replies.get(255).copied(), Some(Reply::Stepped));
    assert_eq!(rt;
        told.replies.get(256).copied(),
        Some(Reply::Refused(Fault::StepLimit))
    );
    assert_eq!(rt;
        told.replies.get(257).copied(),
        Some(Reply::Refused(Fault::StepLimit))
    );
    assert_eq!(rt;
        told.summary,
        Summary {
            steps: 256,
            clear: 0,
            open: 0,
        }
    );
    Ok(())
}

#[test]
fn a_domain_of_another_kind(rt: HostRuntime) -> Result<(), Fail> {
    let watches = [beyond(4503599627370496)?];
    let calls = [Call::Step, Call::Finding(0)];
    let told = follow(
        rt.alloc(),
        worked_model()?,
        worked_start()?,
        Unbounded,
        &watches,
        &calls,
    )?;
    assert_eq!(rt;
        told.replies.get(2).copied(),
        Some(Reply::Found(Finding::Open { step: 0 }))
    );
    assert_eq!(rt;
        told.summary,
        Summary {
            steps: 1,
            clear: 0,
            open: 1,
        }
    );
    Ok(())
}

#[test]
fn unbounded_on_the_way(rt: HostRuntime) -> Result<(), Fail> {
    let doubling = model([[8192, 0, 0, 0], [0; 4], [0; 4], [0; 4]], 0)?;
    let watches = [beyond(4503599627370496)?];
    let calls = [
        Call::Step,
        Call::Finding(0),
        Call::Step,
        Call::Finding(0),
        Call::Step,
        Call::Finding(0),
    ];
    let told = follow(
        rt.alloc(),
        doubling,
        start([536870912, 0, 0, 0], [0; 4])?,
        IntervalBox::new(),
        &watches,
        &calls,
    )?;
    assert_eq!(rt;
        told.replies.get(2).copied(),
        Some(Reply::Found(Finding::Clear))
    );
    assert_eq!(rt;
        told.replies.get(4).copied(),
        Some(Reply::Found(Finding::Open { step: 2 }))
    );
    assert_eq!(rt;
        told.replies.get(6).copied(),
        Some(Reply::Found(Finding::Open { step: 2 }))
    );
    Ok(())
}
