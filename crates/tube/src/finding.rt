//! What is found of a keep-out.
ghost use Rattle.std.specs.Prelude.{◌≡◌};
ghost use Rattle.tube.specs.Judging.{is_clear};

/// Clear at every step so far, or open since a step.
// No Option: none would read as nothing found, and clear is a finding.
#[derive(Clone, Copy, PartialEq, Eq, Debug)]
pub enum Finding {
    Clear,
    Open { step: usize },
}

impl Finding {
    pub(crate) fn is_clear(self) -> bool
        ensures { result ≡ is_clear self }
    {
        matches!(self, Finding::Clear)
    }
}
