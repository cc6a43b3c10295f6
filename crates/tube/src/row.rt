//! One row of the keep-out table: plain numbers and a finding.
ghost use Rattle.std.specs.Prelude.{◌≡◌};
ghost use Rattle.tube.specs.Rows.{opened, row_of};

use super::finding::Finding;
use dynamics::keep_out::KeepOut;

// Plain numbers and no keep-out: the project fixes this form.
#[derive(Clone, Copy)]
pub(crate) struct Row {
    pub(crate) entries: [i64; 4],
    pub(crate) threshold: i64,
    pub(crate) finding: Finding,
}

impl Row {
    /// A row that watches nothing.
    pub(crate) const UNUSED: Row = Row {
        entries: [0; 4],
        threshold: 0,
        finding: Finding::Clear,
    };

    /// The row of a keep-out that is watched from now on.
    pub(crate) fn new(keep_out: &KeepOut) -> Row
        ensures { result ≡ row_of keep_out.now }
    {
        Row {
            entries: keep_out.direction().entries(),
            threshold: keep_out.threshold(),
            finding: Finding::Clear,
        }
    }

    /// Records that the keep-out is open since a step.
    pub(crate) fn open_at(&mut self, step: usize)
        ensures { self.new ≡ opened step self.old }
    {
        self.finding = Finding::Open { step };
    }
}
