//! What can be wrong with a plan's text: in a number, in a field, in a line, in the whole.
ghost use Rattle.std.specs.Prelude.{◌≡◌};
ghost use Rattle.plan.specs.declared.faults.FieldFault.TheVariants.{Number};
ghost use Rattle.plan.specs.declared.faults.LineFault.TheVariants.{Field};

/// Where a number's text breaks off: the offset of the first byte that cannot stand, or the
/// text's length. Fields are counted from 1.
#[derive(Clone, Copy, PartialEq, Eq, Debug)]
pub struct NumberFault {
    pub field: usize,
    pub offset: usize,
}

/// What is wrong with one field.
#[derive(Clone, Copy, PartialEq, Eq, Debug)]
pub enum FieldFault {
    /// A number badly written.
    Number(NumberFault),
    /// A label badly written.
    Label { field: usize },
    /// A number out of range, or not the next in order.
    Range { field: usize },
}

/// What is wrong with one line.
#[derive(Clone, Copy, PartialEq, Eq, Debug)]
pub enum LineFault {
    /// No line end is left.
    NoEnd,
    /// The first field does not name the expected record.
    Name,
    /// A seventeenth keep-out.
    Crowded,
    /// The number of fields.
    Count,
    /// A field.
    Field(FieldFault),
    /// Centre and radius are together too large; the field is the radius.
    Sum { field: usize },
}

/// Why a text is not a plan. Lines are counted from 1.
#[derive(Clone, Copy, PartialEq, Eq, Debug)]
pub enum Refusal {
    /// The text has over 8,192 bytes.
    TooLong,
    /// A line is at fault.
    Line { line: usize, fault: LineFault },
    /// Bytes follow the last record, on this line.
    Following { line: usize },
}

impl From<NumberFault> for FieldFault {
    ghost from_gives = { λ e r. r ≡ Number e };

    fn from(e: NumberFault) -> FieldFault {
        FieldFault::Number(e)
    }
}

impl From<FieldFault> for LineFault {
    ghost from_gives = { λ e r. r ≡ Field e };

    fn from(e: FieldFault) -> LineFault {
        LineFault::Field(e)
    }
}
