//! Why numbers make no value.
ghost use Rattle.std.specs.Prelude.{◌≡◌, Some};
ghost use Rattle.dynamics.specs.RefusalTexts.{refusal_text};

use std::error::Error;
use std::fmt;

/// A refusal of numbers, with the place, from 1, of the number that is at fault.
#[derive(Clone, Copy, PartialEq, Eq, Debug)]
pub enum Refusal {
    /// The first number that lies outside its range.
    OutOfRange { place: usize },
    /// The radius that is too large together with its centre.
    TooLarge { place: usize },
}

impl fmt::Display for Refusal {
    ghost output = { λ r. Some (refusal_text r) };

    fn fmt<W: fmt::Write>(&self, f: &mut fmt::Formatter<W>) -> fmt::Result {
        match self {
            Refusal::OutOfRange { place } => write!(f, "number {place} is out of range"),
            Refusal::TooLarge { place } => write!(f, "number {place} is too large for its centre"),
        }
    }
}

impl Error for Refusal {}
