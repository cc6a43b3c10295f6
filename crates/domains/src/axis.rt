//! The signed axes, numbered 0 to 7: +1, -1, +2, -2, +3, -3, +4, -4.
ghost use Rattle.std.specs.Prelude.{◌≡◌, ◌<◌, ◌≤◌, MatchOption};

mod all;
mod unit;

#[derive(Clone, Copy)]
pub struct SignedAxis {
    index: usize,
    ghost eight: { index < 8 },
}

impl SignedAxis {
    /// The axis of a number, absent where there is none.
    pub fn new(index: usize) -> Option<SignedAxis>
        ensures { MatchOption result (8 ≤ index) (λ a. a.index ≡ index) }
    {
        // `then` is no plainer: its closure would need a clause that the index is below 8.
        if index < 8 {
            Some(SignedAxis { index })
        } else {
            None
        }
    }

    pub fn index(self) -> usize
        ensures value { result ≡ self.index }
        ensures eight { result < 8 }
    {
        self.index
    }
}
