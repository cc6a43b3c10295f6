//! Values made from numbers: every place out of range, and sums that are too large.
ghost use Rattle.std.specs.Prelude.{◌≡◌, ℕ, ◌+◌, ◌^◌, ◌<◌, ◌≤◌, slice_set};
ghost use Rattle.std.specs.Option.{option_map};
ghost use Rattle.arith.specs.Sums.{part, listed};
ghost use Rattle.trials.specs.Numbers.{told, model_told, start_told};
ghost use Rattle.trials.specs.Counts.{total};

use super::marks::Marks;
use dynamics::channel::Channel;
use dynamics::direction::Direction;
use dynamics::keep_out::KeepOut;
use dynamics::model::Model;
use dynamics::refusal::Refusal;
use dynamics::start::Start;

/// Four numbers from a place on.
fn four(numbers: [i64; 28], from: usize) -> [i64; 4]
    requires { from + 4 ≤ 28 }
    ensures { result ≡ listed 4 (λ i. part numbers (from + i)) }
{
    // Written out: the proof of `from_fn` over `from` stays open.
    [
        numbers[from],
        numbers[from + 1],
        numbers[from + 2],
        numbers[from + 3],
    ]
}

/// A channel's six numbers from a place on.
fn channel(numbers: [i64; 28], from: usize) -> Channel
    requires { from + 6 ≤ 28 }
    ensures { (result.gains ≡ listed 4 (λ i. part numbers (from + i))) × (result.centre ≡ part numbers (from + 4)) × (result.radius ≡ part numbers (from + 5)) }
{
    Channel {
        gains: four(numbers, from),
        centre: numbers[from + 4],
        radius: numbers[from + 5],
    }
}

/// The refusal of a model of 28 numbers, if it is refused.
fn model_refusal(numbers: [i64; 28]) -> Option<Refusal>
    ensures { option_map told result ≡ model_told numbers }
{
    let matrix = [
        four(numbers, 0),
        four(numbers, 4),
        four(numbers, 8),
        four(numbers, 12),
    ];
    Model::new(matrix, channel(numbers, 16), channel(numbers, 22)).err()
}

/// The refusal of a start of eight numbers, if it is refused.
fn start_refusal(n: [i64; 8]) -> Option<Refusal>
    ensures { option_map told result ≡ start_told n }
{
    Start::new([n[0], n[2], n[4], n[6]], [n[1], n[3], n[5], n[7]]).err()
}

/// Numbers with another one at an index.
fn with<const N: usize>(mut numbers: [i64; N], index: usize, number: i64) -> [i64; N]
    requires { index < N }
    ensures { result ≡ slice_set numbers.entry index number }
{
    numbers[index] = number;
    numbers
}

/// So many numbers of which the one at an index is out of range, at each index.
fn check_places<F: Fn(usize) -> Option<Refusal>>(count: usize, refusal: F) -> Marks
    requires few { count ≤ 2 ^ 20 }
    requires callable { (index : ℕ) → index < count → F.pre refusal index }
    ensures { total result ≡ count }
{
    let mut marks = Marks::default();
    for index in 0..count {
        let expected = Refusal::OutOfRange { place: index + 1 };
        marks.mark(Some(refusal(index) == Some(expected)));
    }
    marks
}

/// A start whose centre and radius are too large together, in each part, and one that is not.
fn check_start_sums() -> Marks
    ensures { total result ≡ 8 }
{
    let mut marks = Marks::default();
    for part in 0..4usize {
        let mut numbers = [0; 8];
        numbers[2 * part] = -1073741824;
        marks.mark(Some(start_refusal(numbers) == None));
        numbers[2 * part + 1] = 1;
        let place = 2 * part + 2;
        marks.mark(Some(start_refusal(numbers) == Some(Refusal::TooLarge { place })));
    }
    marks
}

/// Sums of a model, and ranges before sums.
fn check_model_sums() -> Marks
    ensures { total result ≡ 3 }
{
    let mut marks = Marks::default();
    let mut numbers = [0; 28];
    numbers[20] = 16777216;
    marks.mark(Some(model_refusal(numbers) == None));
    numbers[21] = 1;
    marks.mark(Some(model_refusal(numbers) == Some(Refusal::TooLarge { place: 22 })));
    numbers[27] = -1;
    marks.mark(Some(model_refusal(numbers) == Some(Refusal::OutOfRange { place: 28 })));
    marks
}

/// The second channel's sum, and a keep-out's threshold.
fn check_last_places() -> Marks
    ensures { total result ≡ 3 }
{
    let mut marks = Marks::default();
    let mut numbers = [0; 28];
    numbers[26] = -1;
    numbers[27] = 16777216;
    marks.mark(Some(model_refusal(numbers) == Some(Refusal::TooLarge { place: 28 })));
    marks.mark(Some(KeepOut::new([0; 4], 4503599627370496).is_ok()));
    marks.mark(Some(
        KeepOut::new([0; 4], 4503599627370497).err() == Some(Refusal::OutOfRange { place: 5 }),
    ));
    marks
}

/// All of these: 28 places of a model, 8 of a start above and below, 4 of a direction and of a
/// keep-out, and 8 + 3 + 3 comparisons more.
pub fn check_numbers() -> Marks
    ensures { total result ≡ 66 }
{
    let entries = [1048576, -1048576, 0, 0];
    check_places(28, |i| model_refusal(with([0; 28], i, 16777217)))
        + check_places(8, |i| start_refusal(with([0; 8], i, 1073741825)))
        + check_places(8, |i| start_refusal(with([0; 8], i, -1073741825)))
        + check_places(4, |i| Direction::new(with(entries, i, -1048577)).err())
        + check_places(4, |i| {
            KeepOut::new(with(entries, i, -1048577), 4503599627370497).err()
        })
        + check_start_sums()
        + check_model_sums()
        + check_last_places()
}
