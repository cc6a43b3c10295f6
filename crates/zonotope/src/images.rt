//! The images of a zonotope's centre, generators and axis part under the loop, and of the gusts.
ghost use Rattle.std.specs.Prelude.{◌≡◌, ◌+◌, ◌^◌, ◌≤◌, ◌++◌, map, ◌+ℤ◌};
ghost use Rattle.arith.specs.Sums.{part, entry, listed};
ghost use Rattle.dynamics.specs.Limits.{MatrixLimits};
ghost use Rattle.dynamics.specs.Runs.{image};
ghost use Rattle.dynamics.specs.Values.{loop, middle};
ghost use Rattle.zonotope.specs.Shape.{size};
ghost use Rattle.zonotope.specs.Advance as spec;
ghost use Rattle.zonotope.specs.Forms.{standing, shape_of};
ghost use Rattle.zonotope.specs.Ranges.{CountsOf, Entries};

use super::generators::{Generators, push};
use super::stored::Stored;
use arith::kernel::times_column;
use dynamics::model::Model;

/// The sum of two vectors.
fn sum(a: [i64; 4], b: [i64; 4]) -> [i64; 4]
    requires first { Entries (2 ^ 61) a }
    requires second { Entries (2 ^ 61) b }
    ensures { result ≡ listed 4 (λ i. part a i +ℤ part b i) }
{
    std::array::from_fn(|i| a[i] + b[i])
}

/// The image of the centre under the gusts' centres.
pub(crate) fn middle_image(model: &Model, stored: &Stored) -> [i64; 4]
    ensures { result ≡ listed 4 (image model.now (part stored.now.centre) (middle model.now)) }
{
    sum(
        times_column(model.matrix(), stored.centre),
        times_column(model.gains(), model.centres()),
    )
}

/// The loop matrix times each generator.
fn moved(model: &Model, stored: &Stored) -> Generators
    ensures list { standing result ≡ map (spec.moved (loop model.now)) (standing stored.now.generators) }
    ensures few { result.len ≤ 16 }
{
    let matrix = model.matrix();
    let mut moved = Generators::new([0; 4]);
    for generator in stored.generators.as_slice() {
        push(&mut moved, times_column(matrix, *generator));
    }
    moved
}

/// Adds each of some numbers of at least 0 times its column of a matrix.
fn add_columns<const N: usize>(images: &mut Generators, matrix: [[i64; N]; 4], counts: [i64; N])
    requires room { images.old.len + N ≤ 22 }
    requires matrix { MatrixLimits N matrix }
    requires counts { CountsOf N (2 ^ 30) counts }
    ensures list { standing images.new ≡ standing images.old ++ spec.columns N (entry matrix.entry) (size counts.entry) }
    ensures len { images.new.len ≡ images.old.len + N }
{
    // Counted: the check reads no closure in a function that is generic in a number.
    for j in 0..N {
        let mut arm = [0; N];
        arm[j] = counts[j];
        push(images, times_column(matrix, arm));
    }
}

/// All vectors before rounding, in order: the generators' images, the axis part's, the gusts'.
pub(crate) fn images(model: &Model, stored: &Stored) -> Generators
    ensures { standing result ≡ spec.images model.now (shape_of stored.now) }
{
    let mut images = moved(model, stored);
    add_columns(&mut images, model.matrix(), stored.axis.parts);
    add_columns(&mut images, model.gains(), model.radii());
    images
}
