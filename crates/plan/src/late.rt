//! A line after the starts.
// Neither an Option nor a Result: the steps are no fault, and they carry a number.
use super::keep::Keep;
use super::steps::Steps;

#[derive(Clone, Copy)]
pub(crate) enum Late {
    Keep(Keep),
    Steps(Steps),
}
