//! What a finished tube tells.

/// The steps taken, and how many keep-outs are found clear and how many open.
#[derive(Clone, Copy, PartialEq, Eq, Debug)]
pub struct Summary {
    pub steps: usize,
    pub clear: usize,
    pub open: usize,
}
