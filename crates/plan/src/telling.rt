//! Each refusal with its number, line, field and place.
ghost use Rattle.std.specs.Prelude.{◌≡◌};
ghost use Rattle.plan.specs.Report as spec;

use super::faults::{FieldFault, LineFault, Refusal};
use super::told::Told;

fn telling(number: usize, line: usize, field: usize, place: usize) -> Told
    ensures { result ≡ spec.telling number line field place }
{
    Told {
        number,
        line,
        field,
        place,
    }
}

/// What a line's fault tells.
fn line_told(line: usize, fault: LineFault) -> Told
    ensures { result ≡ spec.told (Refusal.Line line fault) }
{
    match fault {
        LineFault::NoEnd => telling(9, line, 0, 0),
        LineFault::Name => telling(2, line, 1, 0),
        LineFault::Crowded => telling(10, line, 1, 0),
        LineFault::Count => telling(3, line, 0, 0),
        LineFault::Field(FieldFault::Number(e)) => telling(4, line, e.field, e.offset),
        LineFault::Field(FieldFault::Label { field }) => telling(6, line, field, 0),
        LineFault::Field(FieldFault::Range { field }) => telling(5, line, field, 0),
        LineFault::Sum { field } => telling(7, line, field, 0),
    }
}

impl Refusal {
    /// The number, line, field and place of this refusal.
    pub fn told(self) -> Told
        ensures { result ≡ spec.told self }
    {
        match self {
            Refusal::TooLong => telling(1, 0, 0, 0),
            Refusal::Line { line, fault } => line_told(line, fault),
            Refusal::Following { line } => telling(8, line, 0, 0),
        }
    }
}
