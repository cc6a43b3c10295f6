//! A stored zonotope: made from a start, and taken one step on. A step takes at most 22 vectors
//! through the loop, each by one product and four roundings, and folds at most six times; a fold
//! weighs each generator once and moves up those behind the folded one. Nothing is allocated.
ghost use Rattle.std.specs.Prelude.{◌≡◌, ◌+◌, ◌^◌, ◌<◌, ◌≤◌, length, pos, Some};
ghost use Rattle.std.specs.Option.{option_map};
ghost use Rattle.arith.specs.Sums.{listed};
ghost use Rattle.dynamics.specs.Values.{along};
ghost use Rattle.zonotope.specs.Shape as shape;
ghost use Rattle.zonotope.specs.Domain as spec;
ghost use Rattle.zonotope.specs.Spread.{moved_spread};
ghost use Rattle.zonotope.specs.Foldings.{folding_shape};
ghost use Rattle.zonotope.specs.Forms.{standing, shape_of, parts_of, narrowed, form_of};

use super::advance::advanced;
use super::extent::{extents, is_narrow, reach};
use super::fold::Folding;
use super::generators::Generators;
use super::sizes::span;
use super::stored::{Radii, Stored};
use arith::kernel::product;
use dynamics::direction::Direction;
use dynamics::model::Model;
use dynamics::start::Start;

/// The zonotope of a start.
pub(crate) fn begun(start: &Start) -> Stored
    ensures shape { shape_of result ≡ spec.begun start.now }
    ensures spread { parts_of result.spread ≡ Some (listed 4 (λ i. pos 0)) }
{
    let centres = start.centres();
    let radii = start.radii();
    Stored {
        centre: centres,
        axis: Radii { parts: radii },
        generators: Generators::new([0; 4]),
        spread: Some(Radii { parts: [0; 4] }),
    }
}

/// Moved through the loop, rounded and folded, with the spread.
fn moved(model: &Model, stored: &Stored) -> Folding
    ensures shape { folding_shape result ≡ spec.moved_shape model.now (shape_of stored.now) }
    ensures spread { result.spread ≡ option_map (moved_spread model.now (shape_of stored.now)) (parts_of stored.now.spread) }
    ensures few { length (standing result.generators) ≤ 16 }
{
    let mut folding = advanced(model, stored);
    folding.reduce();
    folding
}

/// The spread of a folded zonotope for storage: absent where one of its parts passes 2^30.
fn narrow_spread(folding: &Folding) -> Option<Radii>
    ensures { parts_of result ≡ narrowed folding.now.spread }
{
    // `then` is no plainer: its closure would need a clause that the parts are narrow.
    let parts = folding.spread?;
    if is_narrow(parts) {
        Some(Radii { parts })
    } else {
        None
    }
}

/// A folded zonotope for storage: absent where it is too large in some part.
fn bounded(folding: &Folding) -> Option<Stored>
    requires { length (standing folding.now.generators) ≤ 16 }
    ensures { form_of result ≡ spec.kept_if (spec.bounds (folding_shape folding.now)) (record { shape = folding_shape folding.now; spread = narrowed folding.now.spread }) }
{
    if !is_narrow(extents(folding)) {
        return None;
    }
    let axis = folding.axis;
    Some(Stored {
        centre: folding.centre,
        axis: Radii { parts: axis },
        generators: folding.generators,
        spread: narrow_spread(folding),
    })
}

/// One step on.
pub(crate) fn advance(model: &Model, stored: &Stored) -> Option<Stored>
    ensures { form_of result ≡ spec.stood model.now (record { shape = shape_of stored.now; spread = parts_of stored.now.spread }) }
{
    bounded(&moved(model, stored))
}

/// The greatest product of a direction with a held state.
pub(crate) fn bound(stored: &Stored, direction: &Direction) -> i64
    ensures { result ≡ shape.bound (along direction.now) (shape_of stored.now) }
{
    let middle = product(direction.entries(), stored.centre);
    let sides = span(direction.entries(), stored.axis);
    middle + sides + reach(direction, stored)
}
