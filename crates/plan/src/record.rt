//! The records of a plan: lines whose fields are parts of the text.
ghost use Rattle.std.specs.Prelude.{◌≡◌};
ghost use Rattle.plan.specs.Cuts.{fields_left};
ghost use Rattle.plan.specs.Records.{fielded, only, kind_of, counted, record_of};
ghost use Rattle.plan.specs.Shown.{shown};
ghost use Rattle.plan.specs.declared.record.Kind.TheVariants as kinds;

use super::cuts::Fields;
use super::entries::Entries;
use super::faults::LineFault;

/// A line that was read, without its name. `index` is the number that counts rows, channels or parts.
#[derive(Clone, Copy)]
pub enum Record<'a> {
    /// A row of the loop matrix.
    Row {
        index: &'a [u8],
        entries: Entries<'a>,
    },
    /// A gust channel: its column of B, and the centre and radius of its gusts.
    Gust {
        index: &'a [u8],
        entries: Entries<'a>,
        centre: &'a [u8],
        radius: &'a [u8],
    },
    /// Centre and radius of a part of the start.
    Start {
        index: &'a [u8],
        centre: &'a [u8],
        radius: &'a [u8],
    },
    /// A keep-out: its label, its direction and its threshold.
    Keep {
        label: &'a [u8],
        entries: Entries<'a>,
        threshold: &'a [u8],
    },
    /// How many steps to take.
    Steps {
        count: &'a [u8],
    },
}

/// The kinds of record.
// The names of `Record` without its fields: what a line is to be is defined over them.
#[derive(Clone, Copy)]
pub enum Kind {
    Row,
    Gust,
    Start,
    Keep,
    Steps,
}

/// What may stand on a line. After the starts come keep-outs, up to sixteen, and then the steps.
// No kind, nor a list of kinds: a seventeenth keep-out is a fault of its own.
#[derive(Clone, Copy)]
pub enum Expected {
    Row,
    Gust,
    Start,
    KeepOrSteps,
    OnlySteps,
}

/// The kind of record that a first field names, where it is the expected one.
fn one_kind(name: &[u8], word: &[u8], kind: Kind) -> Result<Kind, LineFault>
    ensures { result ≡ only word.now kind name.now }
{
    if name == word {
        Ok(kind)
    } else {
        Err(LineFault::Name)
    }
}

/// The kind of record that a first field names, which is to be an expected one.
fn expected_kind(name: &[u8], expected: Expected) -> Result<Kind, LineFault>
    ensures { result ≡ kind_of expected name.now }
{
    match expected {
        Expected::Row => one_kind(name, b"row", Kind::Row),
        Expected::Gust => one_kind(name, b"gust", Kind::Gust),
        Expected::Start => one_kind(name, b"start", Kind::Start),
        Expected::KeepOrSteps if name == b"keep".as_slice() => Ok(Kind::Keep),
        Expected::OnlySteps if name == b"keep".as_slice() => Err(LineFault::Crowded),
        Expected::KeepOrSteps | Expected::OnlySteps => one_kind(name, b"steps", Kind::Steps),
    }
}

fn row<'a>(mut fields: Fields<'a>) -> Result<Record<'a>, LineFault>
    ensures { shown fielded result ≡ counted (fields_left fields.entry.rest) kinds.Row }
{
    let index = fields.next()?;
    let entries = fields.entries()?;
    fields.done()?;
    Ok(Record::Row { index, entries })
}

fn gust<'a>(mut fields: Fields<'a>) -> Result<Record<'a>, LineFault>
    ensures { shown fielded result ≡ counted (fields_left fields.entry.rest) kinds.Gust }
{
    let index = fields.next()?;
    let entries = fields.entries()?;
    let centre = fields.next()?;
    let radius = fields.next()?;
    fields.done()?;
    Ok(Record::Gust {
        index,
        entries,
        centre,
        radius,
    })
}

fn start<'a>(mut fields: Fields<'a>) -> Result<Record<'a>, LineFault>
    ensures { shown fielded result ≡ counted (fields_left fields.entry.rest) kinds.Start }
{
    let index = fields.next()?;
    let centre = fields.next()?;
    let radius = fields.next()?;
    fields.done()?;
    Ok(Record::Start {
        index,
        centre,
        radius,
    })
}

fn keep<'a>(mut fields: Fields<'a>) -> Result<Record<'a>, LineFault>
    ensures { shown fielded result ≡ counted (fields_left fields.entry.rest) kinds.Keep }
{
    let label = fields.next()?;
    let entries = fields.entries()?;
    let threshold = fields.next()?;
    fields.done()?;
    Ok(Record::Keep {
        label,
        entries,
        threshold,
    })
}

fn steps<'a>(mut fields: Fields<'a>) -> Result<Record<'a>, LineFault>
    ensures { shown fielded result ≡ counted (fields_left fields.entry.rest) kinds.Steps }
{
    let count = fields.next()?;
    fields.done()?;
    Ok(Record::Steps { count })
}

/// The record of a line, which is to be an expected one and to have as many fields as it should.
pub(crate) fn read_record<'a>(line: &'a [u8], expected: Expected) -> Result<Record<'a>, LineFault>
    ensures { shown fielded result ≡ record_of expected line.now }
{
    let mut fields = Fields::of(line);
    let name = fields.next()?;
    match expected_kind(name, expected)? {
        Kind::Row => row(fields),
        Kind::Gust => gust(fields),
        Kind::Start => start(fields),
        Kind::Keep => keep(fields),
        Kind::Steps => steps(fields),
    }
}
