//! The program: the plan on standard input, run over the reduced product of zonotope and interval
//! box, a line for each step.
#![tactic(auto)]

ghost use Rattle.std.specs.Prelude.{◌≡◌, ◌≤◌, ◌++◌, length, IfOk, OnOk};
ghost use Rattle.domains.specs.Axes as axes;
ghost use Rattle.domains.specs.Enclosure as spec;
ghost use Rattle.plan.specs.Report.{Puts};
ghost use Rattle.plan.specs.Plans.{plan_of};
ghost use Rattle.pointing.specs.Lines.{ends, step_text};
ghost use Rattle.pointing.specs.Report.{form_text, later_text, reported, Refused};

use domains::domain::Domain;
use domains::enclosure::{Interval, enclosure};
use domains::interval_box::IntervalBox;
use dynamics::model::Model;
use layers::product::ReducedProduct;
use plan::reader::read_plan;
use plan::writer::{Full, Writer};
use std::io;
use std::io::{Read, Write};
use zonotope::zonotope::Zonotope;

/// One byte more than the longest text of a plan: enough to see that a text is too long.
const TEXT: usize = 8193;

/// Room for the longest report: 257 lines of less than 200 bytes.
const PAGE: usize = 65536;

/// All of the input, as far as it fits: how many bytes of `buf` it fills.
fn read_input(input: &mut impl Read, buf: &mut [u8]) -> io::Result<usize>
    ensures { IfOk result (λ n. n ≤ length buf.old) }
{
    let room = buf.len();
    let mut rest = buf;
    io::copy(&mut input.take(room as u64), &mut rest)?;
    Ok(room.saturating_sub(rest.len()))
}

/// The ends of four intervals, one after the other.
fn interval_ends(intervals: [Interval; 4]) -> [i64; 8]
    ensures { result ≡ ends intervals }
{
    [
        intervals[0].low,
        intervals[0].high,
        intervals[1].low,
        intervals[1].high,
        intervals[2].low,
        intervals[2].high,
        intervals[3].low,
        intervals[3].high,
    ]
}

/// Puts the line of a step: the interval of each part, or that a bound is absent.
fn put_step<D: Domain>(out: &mut Writer, step: usize, domain: &D) -> Result<(), Full>
    ensures lent { out.new.buf.ghost_name ≡ out.old.buf.ghost_name }
    ensures line { Puts (step_text step (spec.enclosed (λ a. D.sense.bounded (axes.axis a) (D.form domain.now)))) out.old out.new result }
{
    match enclosure(domain) {
        None => out.unbounded(step),
        Some(intervals) => out.step(step, interval_ends(intervals)),
    }
}

/// Puts a line for step 0 and for each later step of a run from what a domain holds.
fn put_run<D: Domain>(
    out: &mut Writer,
    domain: &mut D,
    model: &Model,
    steps: usize,
) -> Result<(), Full>
    ensures { OnOk result (reported out.new ≡ (reported out.old ++ form_text D.sense 0 (D.form domain.old)) ++ later_text D.sense model.now 0 steps (D.form domain.old)) }
{
    put_step(out, 0, domain)?;
    for step in 0..steps {
        domain.advance(model);
        put_step(out, step + 1, domain)?;
    }
    Ok(())
}

/// Puts the report of a plan's text: its steps over the product, or why it is refused.
fn put_report(out: &mut Writer, text: &[u8]) -> Result<(), Full>
    ensures { Refused (plan_of text.now) out.old out.new result }
{
    match read_plan(text) {
        Ok(plan) => {
            let mut domain = ReducedProduct::new(Zonotope::new(), IntervalBox::new());
            domain.fill(&plan.start);
            put_run(out, &mut domain, &plan.model, plan.steps.count())
        }
        Err(refusal) => out.refused(refusal.told()),
    }
}

fn main(rt: HostRuntime) -> anyhow::Result<()> {
    let mut text = [0u8; TEXT];
    let len = read_input(&mut rt.stdin(), &mut text)?;
    let mut page = [0u8; PAGE];
    let mut out = Writer::over(&mut page);
    put_report(&mut out, &text[..len])?;
    rt.stdout().write_all(out.text())?;
    Ok(())
}
