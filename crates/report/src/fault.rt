//! Why a report is not whole.
ghost use Rattle.std.specs.Prelude.{◌≡◌, Some};
ghost use Rattle.report.specs.declared.fault.Fault.TheVariants as fault;
ghost use Rattle.report.specs.Faults.{fault_text};

use plan::writer::Full;
use std::alloc::AllocError;
use std::error::Error;
use std::fmt;

#[derive(Clone, Copy, PartialEq, Eq, Debug)]
pub enum Fault {
    /// Memory is wanting: nothing was put.
    Memory,
    /// A line does not fit: those before it were put.
    Line(Full),
}

impl fmt::Display for Fault {
    ghost output = { λ f. Some (fault_text f) };

    fn fmt<W: fmt::Write>(&self, f: &mut fmt::Formatter<W>) -> fmt::Result {
        match self {
            Fault::Memory => write!(f, "out of memory"),
            Fault::Line(_) => write!(f, "a line does not fit the page"),
        }
    }
}

impl Error for Fault {}

impl From<AllocError> for Fault {
    ghost from_gives = { λ e r. r ≡ fault.Memory };

    fn from(_e: AllocError) -> Fault {
        Fault::Memory
    }
}

impl From<Full> for Fault {
    ghost from_gives = { λ e r. r ≡ fault.Line e };

    fn from(e: Full) -> Fault {
        Fault::Line(e)
    }
}
