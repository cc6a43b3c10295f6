//! The spread after an advance and after a fold.
ghost use Rattle.std.specs.Prelude.{◌≡◌, ◌^◌, ◌<◌, pos};
ghost use Rattle.std.specs.Option.{option_map};
ghost use Rattle.dynamics.specs.Values.{loop};
ghost use Rattle.zonotope.specs.Choice as choice;
ghost use Rattle.zonotope.specs.Spread as spec;
ghost use Rattle.zonotope.specs.Forms.{parts_of};
ghost use Rattle.zonotope.specs.Ranges.{Counts, Entries};

use super::choice::longest;
use super::sizes::{grown, span};
use super::stored::Radii;
use arith::rounding::down;
use dynamics::model::Model;

/// A part of the spread carried through the loop, with twice the part of the new axis part.
fn carried_part(model: &Model, axis: Radii, spread: Radii, i: usize) -> i64
    requires { i < 4 }
    ensures { result ≡ pos (spec.advanced_part (loop model.now) axis.parts spread.parts i) }
{
    down(span(model.matrix()[i], spread) + 4095) + 2 * axis.parts[i]
}

/// The spread carried through the loop, with twice the new axis part; absent where it was.
pub(crate) fn carried(model: &Model, axis: Radii, spread: Option<Radii>) -> Option<[i64; 4]>
    ensures { result ≡ option_map (spec.spread_advanced (loop model.now) axis.parts) (parts_of spread) }
{
    let spread = spread?;
    Some(std::array::from_fn(|i| carried_part(model, axis, spread, i)))
}

/// The spread after a generator was folded: charged twice its entries' sizes, save at the first
/// largest.
pub(crate) fn charged(spread: [i64; 4], generator: [i64; 4]) -> [i64; 4]
    requires spread { Counts (2 ^ 60) spread }
    requires generator { Entries (2 ^ 59) generator }
    ensures { result ≡ spec.spread_folded (choice.longest generator) generator spread }
{
    let once = grown(spread, generator);
    let mut twice = grown(once, generator);
    let spared = longest(generator);
    twice[spared] = spread[spared];
    twice
}
