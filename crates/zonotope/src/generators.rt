//! Generators in order, in fixed storage.
ghost use Rattle.std.specs.Prelude.{◌≡◌, ◌+◌, ◌<◌, [], ◌∷◌, ◌++◌};
ghost use Rattle.zonotope.specs.Forms.{standing};

use fixed_vec::fixed_vec::FixedVec;

/// Up to 22 generators: the sixteen that a zonotope keeps, and the six that an advance adds.
pub(crate) type Generators = FixedVec<[i64; 4], 22>;

/// Adds a generator at the end, where there is room.
pub(crate) fn push(generators: &mut Generators, generator: [i64; 4])
    requires { generators.old.len < 22 }
    ensures list { standing generators.new ≡ standing generators.old ++ (generator ∷ []) }
    ensures len { generators.new.len ≡ generators.old.len + 1 }
{
    let Ok(()) = generators.push(generator) else {
        unreachable!()
    };
}
