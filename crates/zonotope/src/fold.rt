//! Folding: generators given up for a larger axis part, while more than sixteen stand.
ghost use Rattle.std.specs.Prelude.{◌≡◌, ◌+◌, ◌-◌, ◌^◌, ◌≤◌, List, ℤ, Some, length, take};
ghost use Rattle.zonotope.specs.Ranges.{Entries, Roomy};

use super::choice::lightest;
use super::generators::Generators;
use super::sizes::grown;
use super::spread::charged;

/// A zonotope that is being folded, and its spread. There is room for each generator in the axis
/// part, and twice in the spread.
#[derive(Clone, Copy)]
pub(crate) struct Folding {
    pub(crate) centre: [i64; 4],
    pub(crate) axis: [i64; 4],
    pub(crate) generators: Generators,
    pub(crate) spread: Option<[i64; 4]>,
    ghost limited: { Entries (2 ^ 50) centre },
    ghost roomy: { Roomy 1 (2 ^ 50) axis (take generators.len generators.storage) },
    ghost spread_roomy: { (s : List ℤ) → spread ≡ Some s → Roomy 2 (2 ^ 50) s (take generators.len generators.storage) },
}

impl Folding {
    // here, since one of these words names this file's struct
    ghost use Rattle.std.specs.Option.{option_map};
    ghost use Rattle.zonotope.specs.Choice as choice;
    ghost use Rattle.zonotope.specs.Fold as spec;
    ghost use Rattle.zonotope.specs.Spread as charge;
    ghost use Rattle.zonotope.specs.Foldings.{folding_shape};
    ghost use Rattle.zonotope.specs.Forms.{standing};

    /// Folds the lightest generator.
    fn fold(&mut self)
        requires { 1 ≤ length (standing self.old.generators) }
        ensures shape { folding_shape self.new ≡ spec.folded (choice.lightest (standing self.old.generators)) (folding_shape self.old) }
        ensures spread { self.new.spread ≡ option_map (charge.spread_charged (folding_shape self.old)) self.old.spread }
        ensures len { self.new.generators.len + 1 ≡ self.old.generators.len }
    {
        let place = lightest(self.generators.as_slice());
        let Some(generator) = self.generators.remove(place) else {
            unreachable!()
        };
        self.axis = grown(self.axis, generator);
        if let Some(spread) = &mut self.spread {
            *spread = charged(*spread, generator);
        }
    }

    /// Folds while more than sixteen generators stand.
    pub(crate) fn reduce(&mut self)
        ensures shape { folding_shape self.new ≡ spec.reduced (folding_shape self.old) }
        ensures spread { self.new.spread ≡ option_map (charge.spreads (length (standing self.old.generators) - 16) (folding_shape self.old)) self.old.spread }
        ensures few { length (standing self.new.generators) ≤ 16 }
    {
        while self.generators.len() > 16 {
            self.fold();
        }
    }
}
