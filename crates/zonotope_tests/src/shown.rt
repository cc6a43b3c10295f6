//! A comparison of all the generators that a zonotope shows.
use std::process::Abort;
use zonotope::zonotope::Zonotope;

/// Compares the generators with those expected, in order, and that no other stands.
pub(crate) fn check_generators(rt: &impl Abort, zonotope: &Zonotope, expected: &[[i64; 4]]) {
    for (place, generator) in expected.iter().enumerate() {
        assert_eq!(rt; zonotope.generator(place), Some(*generator));
    }
    assert_eq!(rt; zonotope.generator(expected.len()), None);
}
