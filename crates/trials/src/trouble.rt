//! Why a trial could not be made or run.
ghost use Rattle.std.specs.Prelude.{◌≡◌, Some};
ghost use Rattle.trials.specs.declared.trouble.Trouble.TheVariants.{Memory, Numbers, Call};
ghost use Rattle.trials.specs.Troubles.{trouble_text};

use dynamics::refusal::Refusal;
use std::alloc::{AllocError, AllocFailed};
use std::error::Error;
use std::fmt;
use tube::fault::Fault;

#[derive(Clone, Copy, PartialEq, Eq, Debug)]
pub enum Trouble {
    /// No memory.
    Memory,
    /// Numbers that make no plan.
    Numbers(Refusal),
    /// A call of a tube was refused.
    Call(Fault),
}

impl fmt::Display for Trouble {
    ghost output = { λ t. Some (trouble_text t) };

    fn fmt<W: fmt::Write>(&self, f: &mut fmt::Formatter<W>) -> fmt::Result {
        match self {
            Trouble::Memory => write!(f, "no memory"),
            Trouble::Numbers(refusal) => write!(f, "no plan: {refusal}"),
            Trouble::Call(fault) => write!(f, "a refused call: {fault}"),
        }
    }
}

impl Error for Trouble {}

impl From<Refusal> for Trouble {
    ghost from_gives = { λ e r. r ≡ Numbers e };

    fn from(e: Refusal) -> Trouble {
        Trouble::Numbers(e)
    }
}

impl From<AllocError> for Trouble {
    ghost from_gives = { λ _ r. r ≡ Memory };

    fn from(_e: AllocError) -> Trouble {
        Trouble::Memory
    }
}

impl<T: Drop> From<AllocFailed<T>> for Trouble {
    ghost from_gives = { λ _ r. r ≡ Memory };

    fn from(_e: AllocFailed<T>) -> Trouble {
        Trouble::Memory
    }
}

impl From<Fault> for Trouble {
    ghost from_gives = { λ e r. r ≡ Call e };

    fn from(e: Fault) -> Trouble {
        Trouble::Call(e)
    }
}
