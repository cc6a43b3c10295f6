//! The calls of a launched tube, and what each is answered.
use super::fault::Fault;
use super::finding::Finding;
use dynamics::direction::Direction;

#[derive(Clone, Copy)]
pub enum Call {
    Step,
    Bound(Direction),
    Finding(usize),
}

/// The answer of a watch or a call.
// No Result: a refusal is one of the answers that a list of calls may get, and the list goes on.
#[derive(Clone, Copy, PartialEq, Eq, Debug)]
pub enum Reply {
    Watched,
    Stepped,
    Bounded(Option<i64>),
    Found(Finding),
    Refused(Fault),
}
