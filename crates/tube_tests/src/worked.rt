//! The worked plan: part 1 reaches 108 at step 0 and 110 at step 1.
use super::tubes::beyond;
use domains::interval_box::IntervalBox;
use samples::values::{direction, worked_model, worked_start};
use std::process::Abort;
use std::test::Fail;
use tube::call::{Call, Reply};
use tube::fault::Fault;
use tube::finding::Finding;
use tube::follow::follow;
use tube::summary::Summary;

/// The replies about the thresholds, before the step and after it.
fn check_thresholds(rt: &impl Abort, replies: &[Reply]) {
    assert_eq!(rt; replies.len(), 14);
    assert_eq!(rt; replies.get(4).copied(), Some(Reply::Watched));
    assert_eq!(rt; replies.get(5).copied(), Some(Reply::Found(Finding::Clear)));
    assert_eq!(rt;
        replies.get(6).copied(),
        Some(Reply::Found(Finding::Open { step: 0 }))
    );
    assert_eq!(rt; replies.get(7).copied(), Some(Reply::Stepped));
    assert_eq!(rt; replies.get(8).copied(), Some(Reply::Found(Finding::Clear)));
    assert_eq!(rt; replies.get(9).copied(), Some(Reply::Found(Finding::Clear)));
    assert_eq!(rt;
        replies.get(10).copied(),
        Some(Reply::Found(Finding::Open { step: 1 }))
    );
    assert_eq!(rt;
        replies.get(11).copied(),
        Some(Reply::Found(Finding::Open { step: 1 }))
    );
    assert_eq!(rt;
        replies.get(12).copied(),
        Some(Reply::Found(Finding::Open { step: 0 }))
    );
    assert_eq!(rt;
        replies.get(13).copied(),
        Some(Reply::Refused(Fault::NoKeepOut))
    );
}

#[test]
fn thresholds_about_a_bound(rt: HostRuntime) -> Result<(), Fail> {
    let watches = [
        beyond(112)?,
        beyond(111)?,
        beyond(110)?,
        beyond(109)?,
        beyond(108)?,
    ];
    let calls = [
        Call::Finding(3),
        Call::Finding(4),
        Call::Step,
        Call::Finding(0),
        Call::Finding(1),
        Call::Finding(2),
        Call::Finding(3),
        Call::Finding(4),
        Call::Finding(5),
    ];
    let told = follow(
        rt.alloc(),
        worked_model()?,
        worked_start()?,
        IntervalBox::new(),
        &watches,
        &calls,
    )?;
    check_thresholds(&rt, &told.replies);
    assert_eq!(rt;
        told.summary,
        Summary {
            steps: 1,
            clear: 2,
            open: 3,
        }
    );
    Ok(())
}

#[test]
fn bounds_along_the_way(rt: HostRuntime) -> Result<(), Fail> {
    let up = direction([1, 0, 0, 0])?;
    let calls = [Call::Bound(up), Call::Step, Call::Bound(up)];
    let told = follow(
        rt.alloc(),
        worked_model()?,
        worked_start()?,
        IntervalBox::new(),
        &[],
        &calls,
    )?;
    assert_eq!(rt;
        told.replies.get(0).copied(),
        Some(Reply::Bounded(Some(108)))
    );
    assert_eq!(rt;
        told.replies.get(2).copied(),
        Some(Reply::Bounded(Some(110)))
    );
    assert_eq!(rt;
        told.summary,
        Summary {
            steps: 1,
            clear: 0,
            open: 0,
        }
    );
    Ok(())
}
