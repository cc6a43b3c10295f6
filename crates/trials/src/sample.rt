//! Plans drawn at random, of a kind.
ghost use Rattle.std.specs.Prelude.{◌≡◌, ℕ, ◌+◌, ◌*◌, ◌%◌, ◌^◌, ◌<◌, ◌≤◌, length, pos, ◌≤ℤ◌, IfOk, unsigned_abs};
ghost use Rattle.arith.specs.Sums.{part, entry};
ghost use Rattle.dynamics.specs.Values.{middle, radius, centre, width, along};
ghost use Rattle.trials.specs.Kinds.{gust_size, start_size};
ghost use Rattle.trials.specs.Random.{UpTo};

use super::kind::Kind;
use super::random::Random;
use arith::kernel::product;
use dynamics::channel::Channel;
use dynamics::direction::Direction;
use dynamics::keep_out::KeepOut;
use dynamics::model::Model;
use dynamics::refusal::Refusal;
use dynamics::start::Start;

/// A centre and a radius.
#[derive(Clone, Copy)]
struct Pair {
    centre: i64,
    radius: i64,
}

/// A centre and a radius that together have at most the size `limit`.
fn draw_pair(random: &mut Random, limit: i64) -> Pair
    requires { UpTo (pos (2 ^ 30)) limit }
    ensures { (pos 0 ≤ℤ result.radius) × (unsigned_abs result.centre + unsigned_abs result.radius ≤ unsigned_abs limit) }
{
    let radius = random.up_to(limit);
    let centre = random.within(limit - radius);
    Pair { centre, radius }
}

/// A number within `±limit`, times 4096 where it is to be whole.
fn draw_entry(random: &mut Random, limit: i64, whole: bool) -> i64
    requires { UpTo (pos (2 ^ 20)) limit }
    ensures size { unsigned_abs result ≤ 4096 * unsigned_abs limit }
{
    let entry = random.within(limit);
    if whole { 4096 * entry } else { entry }
}

/// Four such numbers.
fn draw_entries(random: &mut Random, limit: i64, whole: bool) -> [i64; 4]
    requires { UpTo (pos (2 ^ 20)) limit }
    ensures { (i : ℕ) → i < 4 → unsigned_abs (part result i) ≤ 4096 * unsigned_abs limit }
{
    let mut entries = [0; 4];
    for entry in &mut entries {
        *entry = draw_entry(random, limit, whole);
    }
    entries
}

/// A row of the loop matrix, whose leading entry, if there is one, stands in a column.
fn draw_row(random: &mut Random, kind: Kind, column: usize) -> [i64; 4]
    requires { column < 4 }
    ensures { length result ≡ 4 }
{
    let mut row = draw_entries(random, kind.others(), kind.is_whole());
    let lead = kind.lead();
    if lead > 0 {
        row[column] = random.signed(lead);
    }
    row
}

/// A loop matrix. The leading entries of its rows stand in four columns.
fn draw_matrix(random: &mut Random, kind: Kind) -> [[i64; 4]; 4]
    ensures { length result ≡ 4 }
{
    let turn = random.below(4) as usize;
    std::array::from_fn(|i| draw_row(random, kind, (turn + i) % 4))
}

fn draw_channel(random: &mut Random, kind: Kind) -> Channel
    ensures { (pos 0 ≤ℤ result.radius) × (unsigned_abs result.centre + unsigned_abs result.radius ≤ gust_size kind) }
{
    let gains = draw_entries(random, kind.gains(), kind.is_whole());
    let pair = draw_pair(random, kind.gusts());
    Channel {
        gains,
        centre: pair.centre,
        radius: pair.radius,
    }
}

/// A loop and its gusts.
pub fn draw_model(random: &mut Random, kind: Kind) -> Result<Model, Refusal>
    ensures { IfOk result (λ m. (j : ℕ) → j < 2 → unsigned_abs (middle m j) + radius m j ≤ gust_size kind) }
{
    let matrix = draw_matrix(random, kind);
    let first = draw_channel(random, kind);
    let second = draw_channel(random, kind);
    Model::new(matrix, first, second)
}

/// A start.
pub fn draw_start(random: &mut Random, kind: Kind) -> Result<Start, Refusal>
    ensures { IfOk result (λ s. (i : ℕ) → i < 4 → unsigned_abs (centre s i) + width s i ≤ start_size kind) }
{
    let limit = kind.start();
    // One by one: a loop would write two arrays by index, and is no plainer.
    let a = draw_pair(random, limit);
    let b = draw_pair(random, limit);
    let c = draw_pair(random, limit);
    let d = draw_pair(random, limit);
    Start::new(
        [a.centre, b.centre, c.centre, d.centre],
        [a.radius, b.radius, c.radius, d.radius],
    )
}

/// The greatest size of a direction's entries: one of three.
fn draw_size(random: &mut Random) -> i64
    ensures { UpTo (pos (2 ^ 20)) result }
{
    // By match, here and below: an array read at a drawn index is no plainer.
    match random.below(3) {
        0 => 3,
        1 => 1000,
        _ => 1048576,
    }
}

/// A direction.
pub fn draw_direction(random: &mut Random) -> Result<Direction, Refusal>
    ensures { IfOk result (λ d. (i : ℕ) → i < 4 → unsigned_abs (along d i) ≤ 2 ^ 20) }
{
    let size = draw_size(random);
    Direction::new(draw_entries(random, size, false))
}

/// How far a keep-out lies beyond the start: little, more or much.
fn draw_gap(random: &mut Random) -> i64
    ensures { UpTo (pos (2 ^ 30)) result }
{
    let most = match random.below(3) {
        0 => 100,
        1 => 100000,
        _ => 1073741824,
    };
    random.up_to(most)
}

/// A keep-out that begins at the end of what the start reaches in its direction, or beyond.
pub fn draw_keep_out(start: &Start, random: &mut Random) -> Result<KeepOut, Refusal>
    ensures { IfOk result (λ k. unsigned_abs k.threshold ≤ 2 ^ 52) }
{
    let l = draw_direction(random)?.entries();
    let sizes = l.map(|entry| entry.wrapping_abs());
    let middle = product(l, start.centres());
    let reach = middle.saturating_add(product(sizes, start.radii()));
    KeepOut::new(
        l,
        reach.saturating_add(draw_gap(random)).min(4503599627370496),
    )
}
