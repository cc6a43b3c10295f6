//! What is printed.
use super::case::RUNS;
use super::kind::Kind;
use super::marks::Marks;
use super::tally::Tally;
use super::trial::{Outcome, PLANS};
use std::io;

/// Stored cases: how many were compared, and how many differ.
pub fn show_stored(rt: &impl Print, name: &str, marks: Marks) -> io::Result<()> {
    println!(rt; "{name}: {} agree, {} differ", marks.held, marks.failed)
}

/// Whether any were counted.
fn some(count: u64) -> &'static str {
    if count > 0 { "some" } else { "none" }
}

/// The bounds of a tame kind: all are present, and each is held against every run.
fn show_bounds(rt: &impl Print, states: u64, tally: Tally) -> io::Result<()> {
    println!(rt;
        "  bounds: {} present, {} absent",
        tally.present, tally.absent
    )?;
    let comparisons = tally.present.saturating_mul(RUNS as u64);
    println!(rt; "  states: {states}, comparisons: {comparisons}")?;
    let clear = some(tally.clear);
    let entered = tally.entered;
    println!(rt; "  keep-outs found clear: {clear}, entered by {entered} runs")
}

/// The bounds of any other kind.
fn show_some(rt: &impl Print, tally: Tally) -> io::Result<()> {
    let present = some(tally.present);
    let absent = some(tally.absent);
    println!(rt; "  bounds: {present} present, {absent} absent")?;
    let entered = tally.entered;
    println!(rt; "  keep-outs found clear were entered by {entered} runs")
}

/// The comparisons for tightness and refinement of a tame kind: all can be made.
fn show_marks(rt: &impl Print, outcome: Outcome) -> io::Result<()> {
    let Outcome { tight, refined, .. } = outcome;
    println!(rt; "  tight: {}, not tight: {}", tight.held, tight.failed)?;
    println!(rt;
        "  refined: {}, not refined: {}",
        refined.held, refined.failed
    )
}

/// The comparisons of any other kind.
fn show_failed(rt: &impl Print, outcome: Outcome) -> io::Result<()> {
    let Outcome { tight, refined, .. } = outcome;
    println!(rt;
        "  not tight: {}, not refined: {}",
        tight.failed, refined.failed
    )
}

/// All that is seen of one kind.
pub fn show_kind(rt: &impl Print, kind: Kind, outcome: Outcome) -> io::Result<()> {
    let runs = PLANS * RUNS;
    let escapes = outcome.tally.escapes;
    println!(rt; "{kind}: {PLANS} plans, {runs} runs, {escapes} escapes")?;
    if kind.is_tame() {
        show_bounds(rt, outcome.states, outcome.tally)?;
        return show_marks(rt, outcome);
    }
    show_some(rt, outcome.tally)?;
    show_failed(rt, outcome)
}
