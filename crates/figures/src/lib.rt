//! The worked figures as one theorem: each follows from the definitions that the contracts of the
//! other crates cite.
#![tactic(auto)]

ghost use Rattle.figures.specs.Figures.{Figures};

/// The worked figures hold.
pub fn figures()
    ensures { Figures }
{}
