//! How many steps a plan takes.
ghost use Rattle.std.specs.Prelude.{◌≡◌, ◌≤◌};

/// A number from 0 to 256.
#[derive(Clone, Copy, PartialEq, Eq, Debug)]
pub struct Steps {
    count: usize,
    ghost limited: { count ≤ 256 },
}

impl Steps {
    pub(crate) fn new(count: usize) -> Steps
        requires { count ≤ 256 }
        ensures { result.count ≡ count }
    {
        Steps { count }
    }

    pub fn count(self) -> usize
        ensures value { result ≡ self.count }
        ensures limit { result ≤ 256 }
    {
        self.count
    }
}
