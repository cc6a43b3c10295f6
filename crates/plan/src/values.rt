//! What the lines of a plan say.
ghost use Rattle.std.specs.Prelude.{◌≡◌, ◌^◌, ◌≤◌};
ghost use Rattle.plan.specs.Values.{pair_of, row_of, gust_of, start_of, keep_out_of, plain_keep, steps_of, plain_steps};
ghost use Rattle.plan.specs.Shown.{shown};

use super::entries::Entries;
use super::faults::{FieldFault, LineFault};
use super::fields::{index, ranged};
use super::record::{Expected, Record, read_record};
use super::steps::Steps;
use dynamics::channel::Channel;
use dynamics::keep_out::KeepOut;

// Two fields and no struct: only two records have them, at other field numbers.
/// The centre in a field and the radius in the next.
fn pair(centre: &[u8], radius: &[u8], field: usize, limit: u64) -> Result<(i64, i64), LineFault>
    requires { (limit ≤ 2 ^ 30) × (field ≤ 8) }
    ensures { result ≡ pair_of field limit centre.now radius.now }
{
    let most = limit as i64;
    let centre = ranged(centre, field, -most, most)?;
    let radius = ranged(radius, field + 1, 0, most)?;
    if centre.unsigned_abs() + radius.unsigned_abs() > limit {
        return Err(LineFault::Sum { field: field + 1 });
    }
    Ok((centre, radius))
}

/// The entries of row `i` of the loop matrix.
pub(crate) fn row(line: &[u8], i: usize) -> Result<[i64; 4], LineFault>
    requires { i ≤ 4 }
    ensures { result ≡ row_of i line.now }
{
    let Record::Row {
        index: number,
        entries,
    } = read_record(line, Expected::Row)?
    else {
        unreachable()
    };
    index(number, i)?;
    Ok(entries.numbers()?)
}

/// The numbers of channel `j`.
pub(crate) fn gust(line: &[u8], j: usize) -> Result<Channel, LineFault>
    requires { j ≤ 2 }
    ensures { result ≡ gust_of j line.now }
{
    let Record::Gust {
        index: number,
        entries,
        centre,
        radius,
    } = read_record(line, Expected::Gust)?
    else {
        unreachable()
    };
    index(number, j)?;
    let gains = entries.numbers()?;
    let (centre, radius) = pair(centre, radius, 7, 16777216)?;
    Ok(Channel {
        gains,
        centre,
        radius,
    })
}

/// The centre and radius of part `i` of the start.
pub(crate) fn start(line: &[u8], i: usize) -> Result<(i64, i64), LineFault>
    requires { i ≤ 4 }
    ensures { result ≡ start_of i line.now }
{
    let Record::Start {
        index: number,
        centre,
        radius,
    } = read_record(line, Expected::Start)?
    else {
        unreachable()
    };
    index(number, i)?;
    pair(centre, radius, 3, 1073741824)
}

/// The keep-out of four entries and a threshold in field 7.
pub(crate) fn keep_out(entries: Entries, threshold: &[u8]) -> Result<KeepOut, LineFault>
    ensures { shown plain_keep result ≡ keep_out_of entries.entry.a.now entries.entry.b.now entries.entry.c.now entries.entry.d.now threshold.now }
{
    let entries = entries.numbers()?;
    let threshold = ranged(threshold, 7, -4503599627370496, 4503599627370496)?;
    let Ok(keep_out) = KeepOut::new(entries, threshold) else {
        unreachable()
    };
    Ok(keep_out)
}

/// The steps in field 2.
pub(crate) fn steps(count: &[u8]) -> Result<Steps, FieldFault>
    ensures { shown plain_steps result ≡ steps_of count.now }
{
    let count = ranged(count, 2, 0, 256)?;
    Ok(Steps::new(count as usize))
}
