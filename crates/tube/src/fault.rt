//! Why a call of a tube is refused.
ghost use Rattle.std.specs.Prelude.{◌≡◌, Some};
ghost use Rattle.tube.specs.Faults.{fault_number, fault_text};

use std::error::Error;
use std::fmt;

/// A refused call leaves the tube as it was.
#[derive(Clone, Copy, PartialEq, Eq, Debug)]
pub enum Fault {
    /// Sixteen keep-outs are watched.
    WatchLimit,
    /// 256 steps were taken.
    StepLimit,
    /// No keep-out has that number.
    NoKeepOut,
}

impl Fault {
    /// The number of this refusal.
    pub fn number(self) -> usize
        ensures { result ≡ fault_number self }
    {
        match self {
            Fault::WatchLimit => 11,
            Fault::StepLimit => 12,
            Fault::NoKeepOut => 13,
        }
    }
}

impl fmt::Display for Fault {
    ghost output = { λ f. Some (fault_text f) };

    fn fmt<W: fmt::Write>(&self, f: &mut fmt::Formatter<W>) -> fmt::Result {
        match self {
            Fault::WatchLimit => write!(f, "sixteen keep-outs are watched"),
            Fault::StepLimit => write!(f, "256 steps were taken"),
            Fault::NoKeepOut => write!(f, "no keep-out has that number"),
        }
    }
}

impl Error for Fault {}
