//! Rounding at the fixed point.
use arith::rounding::{down, near};

#[test]
fn down_is_toward_minus_infinity(rt: HostRuntime) {
    assert_eq!(rt; down(-1), -1);
    assert_eq!(rt; down(4095), 0);
    assert_eq!(rt; down(4096), 1);
    assert_eq!(rt; down(-4096), -1);
    assert_eq!(rt; down(-4097), -2);
    assert_eq!(rt; down(i64::MAX), 2251799813685247);
    assert_eq!(rt; down(i64::MIN), -2251799813685248);
}

#[test]
fn near_takes_the_greater_of_two(rt: HostRuntime) {
    assert_eq!(rt; near(2048), (1, 2048));
    assert_eq!(rt; near(2047), (0, 2047));
    assert_eq!(rt; near(-2048), (0, 2048));
    assert_eq!(rt; near(-2049), (-1, 2047));
    assert_eq!(rt; near(-6144), (-1, 2048));
    assert_eq!(rt; near(i64::MAX), (2251799813685248, 1));
    assert_eq!(rt; near(i64::MIN), (-2251799813685248, 0));
}
