//! The abstract domain: a set of states that follows the loop.
ghost use Rattle.std.specs.Prelude.{◌≡◌};
ghost use Rattle.domains.specs.Meaning.{Meaning, Lawful};

use super::axis::SignedAxis;
use dynamics::direction::Direction;
use dynamics::model::Model;
use dynamics::start::Start;

/// A domain stands for a set of states, those that it holds. No call refuses.
pub trait Domain {
    // what a value is, as a plain form
    ghost Form: { Type 0 };

    ghost form: { Self → Form };

    // what a form means, and what each call makes of it
    ghost sense: { Meaning Form };

    /// Afterwards every state of the start is held.
    fn fill(&mut self, start: &Start)
        ensures { form self.new ≡ sense.filled start.now (form self.old) };

    /// Afterwards every permitted successor of a held state is held.
    fn advance(&mut self, model: &Model)
        ensures { form self.new ≡ sense.advanced model.now (form self.old) };

    /// Absent, or at least the product of the direction with every held state.
    fn bound(&self, direction: &Direction) -> Option<i64>
        ensures { result ≡ sense.bounded direction.now (form self.now) };

    /// Every held state whose signed part is at most the limit stays held, and none is added.
    fn cut(&mut self, axis: SignedAxis, limit: i64)
        ensures { form self.new ≡ sense.trimmed axis limit (form self.old) };

    // owed by every implementation
    ghost lawful: { Lawful sense };

    // every value keeps its limits
    ghost kept: { (d : Self) → sense.fits (form d) };
}
