//! Single states against bounds and keep-outs.
ghost use Rattle.std.specs.Prelude.{◌≡◌};
ghost use Rattle.arith.specs.Sums.{part};
ghost use Rattle.arith.specs.Products.{dot};
ghost use Rattle.dynamics.specs.Values.{along};
ghost use Rattle.trials.specs.Verdicts as spec;

use dynamics::direction::Direction;
use dynamics::keep_out::KeepOut;

/// How far a state of any size lies along a direction.
fn reach(direction: &Direction, x: [i64; 4]) -> i128
    ensures { result ≡ dot (along direction.now) (part x) }
{
    let l = direction.entries();
    let mut reach = 0i128;
    for (entry, part) in l.iter().zip(&x) {
        reach += i128::from(*entry) * i128::from(*part);
    }
    reach
}

/// Whether a state lies beyond a bound. A run that was not followed so far left every bound behind.
pub fn escapes(direction: &Direction, bound: i64, state: Option<[i64; 4]>) -> bool
    ensures { result ≡ spec.escapes direction.now bound state }
{
    // A match: the proof of `is_none_or` stays open.
    match state {
        Some(x) => reach(direction, x) > i128::from(bound),
        None => true,
    }
}

/// Whether a state has entered a keep-out.
pub fn has_entered(keep_out: &KeepOut, x: [i64; 4]) -> bool
    ensures { result ≡ spec.entered keep_out.now x }
{
    reach(&keep_out.direction(), x) >= i128::from(keep_out.threshold())
}
