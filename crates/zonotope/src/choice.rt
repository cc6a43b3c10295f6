//! Which generator is folded: the lightest, the earliest among equals.
ghost use Rattle.std.specs.Prelude.{◌≡◌, ◌^◌, ◌<◌, ◌≤◌, length};
ghost use Rattle.zonotope.specs.Shape.{size};
ghost use Rattle.zonotope.specs.Choice as spec;
ghost use Rattle.zonotope.specs.Ranges.{Entries, AllEntries};

/// The place of a generator's first largest entry, by size.
pub(crate) fn longest(generator: [i64; 4]) -> usize
    ensures value { result ≡ spec.longest generator }
    ensures first { spec.FirstGreatest 4 (size generator) result }
{
    // Counted: `min_by_key` wants a closure with conditions, and a law by recursion that std lacks.
    let mut best = 0;
    for i in 1..4 {
        if generator[i].unsigned_abs() > generator[best].unsigned_abs() {
            best = i;
        }
    }
    best
}

/// The sum of the sizes of a generator's entries, less the largest.
fn weight(generator: [i64; 4]) -> u64
    requires { Entries (2 ^ 60) generator }
    ensures { result ≡ spec.weight generator }
{
    let [a, b, c, d] = generator.map(i64::unsigned_abs);
    a + b + c + d - a.max(b).max(c).max(d)
}

/// The place of the first generator of least weight.
pub(crate) fn lightest(generators: &[[i64; 4]]) -> usize
    requires some { 1 ≤ length generators.now }
    requires entries { AllEntries (2 ^ 60) generators.now }
    ensures value { result ≡ spec.lightest generators.now }
    ensures first { spec.FirstLeast (length generators.now) (spec.weights generators.now) result }
{
    // Counted: `min_by_key` wants a closure with conditions, and a law by recursion that std lacks.
    let mut best = 0;
    let mut least = weight(generators[0]);
    for i in 1..generators.len() {
        let next = weight(generators[i]);
        if next < least {
            best = i;
            least = next;
        }
    }
    best
}
