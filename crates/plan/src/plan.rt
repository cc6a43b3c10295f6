//! A plan: what to run, from where, for how long, and what to keep out of.
use super::keeps::Keeps;
use super::steps::Steps;
use dynamics::model::Model;
use dynamics::start::Start;

/// A plan that was read. The labels of its keep-outs are parts of the text that it was read from.
#[derive(Clone, Copy)]
pub struct Plan {
    pub model: Model,
    pub start: Start,
    pub keeps: Keeps,
    pub steps: Steps,
}

/// What follows the starts.
#[derive(Clone, Copy)]
pub(crate) struct Tail {
    pub(crate) keeps: Keeps,
    pub(crate) steps: Steps,
}
