//! A bounded zonotope in fixed storage, with its limits.
ghost use Rattle.std.specs.Prelude.{ℕ, ◌+◌, ◌^◌, ◌<◌, ◌≤◌, length, take};
ghost use Rattle.zonotope.specs.Shape.{size, sizes};
ghost use Rattle.zonotope.specs.Ranges.{Counts};

use super::generators::Generators;

/// The radii of a box, by parts; each from 0 to 2^30.
#[derive(Clone, Copy)]
pub(crate) struct Radii {
    pub(crate) parts: [i64; 4],
    ghost limited: { Counts (2 ^ 30) parts },
}

/// At most sixteen generators stand, and in no part do the sizes of centre, axis part and
/// generators add up to more than 2^30. The spread says how far the bound may have moved from the
/// exact support number; once absent it stays absent until the next fill.
#[derive(Clone, Copy)]
pub(crate) struct Stored {
    pub(crate) centre: [i64; 4],
    pub(crate) axis: Radii,
    pub(crate) generators: Generators,
    pub(crate) spread: Option<Radii>,
    ghost few: { length (take generators.len generators.storage) ≤ 16 },
    ghost limited: { (i : ℕ) → i < 4 → size centre i + size axis.parts i + sizes (take generators.len generators.storage) i ≤ 2 ^ 30 },
}
