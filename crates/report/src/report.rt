//! A plan's report, from the bytes of its text to the bytes on a page.
ghost use Rattle.std.specs.Prelude.{◌≡◌, ◌+◌, ◌*◌, ◌≤◌, length, IfOk};
ghost use Rattle.plan.specs.Keeps.{kept_list};
ghost use Rattle.plan.specs.Report.{PutsLine, refused_line};
ghost use Rattle.plan.specs.Plans.{Sheet, plan_of};
ghost use Rattle.plan.specs.Spelling.{Answers, Spells};
ghost use Rattle.report.specs.Pages.{IsWithin, SameBuffer, PutsLines, PutsTask, PutsReport, Printed, Roomy, page_size};
ghost use Rattle.report.specs.Replies.{Limited, told_lines, keep_outs, plan_replies};
ghost use Rattle.report.specs.Report.{lines_over, bytes};
ghost use Rattle.report.specs.Reports.{Reports};
ghost use Rattle.report.specs.Sentence.{Sentence};
ghost use Rattle.report.specs.Tasks.{task, plan_task};

use super::fault::Fault;
use super::lines::{put_keeps, put_steps};
use super::questions::{keep_outs, questions};
use domains::domain::Domain;
use domains::interval_box::IntervalBox;
use layers::product::ReducedProduct;
use plan::plan::Plan;
use plan::reader::read_plan;
use plan::told::Told;
use plan::writer::{Full, Writer};
use std::alloc::{AllocError, Global};
use tube::call::Reply;
use tube::follow::{Followed, follow};
use zonotope::zonotope::Zonotope;

/// The size of a page that has room for every report, in bytes: 257 lines of a step of at most 153
/// bytes, and 16 lines of a keep-out of at most 27.
pub const PAGE: usize = 40000;

/// Follows a plan over a domain: its keep-outs are watched, and the questions of a report asked.
fn follow_plan<D: Domain + Drop>(
    heap: Global,
    plan: &Plan,
    domain: D,
) -> Result<Vec<Reply>, AllocError>
    ensures { IfOk result (λ v. v.items ≡ plan_replies D.sense (D.form domain) plan.now) }
{
    let watches = keep_outs(heap, &plan.keeps)?;
    let calls = questions(heap, plan.steps.count(), watches.len())?;
    let Followed { replies, .. } = follow(
        heap,
        plan.model,
        plan.start,
        domain,
        watches.as_slice(),
        calls.as_slice(),
    )?;
    Ok(replies)
}

/// Puts the lines of a plan's report, by the answers of its tube to the questions.
fn put_lines(out: &mut Writer, text: &[u8], plan: &Plan, answers: &[Reply]) -> Result<(), Full>
    requires room { IsWithin out.old }
    requires whole { 9 * plan.now.steps.count + 8 + length (kept_list plan.now.keeps) ≡ length answers.now }
    requires limited { Limited answers.now }
    ensures { PutsLines (told_lines text.now (kept_list plan.now.keeps) answers.now plan.now.steps.count) out.old out.new result }
{
    let steps = plan.steps.count();
    put_steps(out, answers, steps)?;
    put_keeps(out, text, &plan.keeps, &answers[9 * steps + 8..])
}

/// Puts the report of a plan over a domain.
fn put_plan<D: Domain + Drop>(
    heap: Global,
    out: &mut Writer,
    text: &[u8],
    plan: &Plan,
    domain: D,
) -> Result<(), Fault>
    requires room { IsWithin out.old }
    ensures { PutsReport (Unit {0}) (lines_over D.sense (D.form domain) (plan_task text.now plan.now)) out.old out.new result }
{
    let replies = follow_plan(heap, plan, domain)?;
    // the replies to the watches come first
    put_lines(out, text, plan, &replies[plan.keeps.count()..])?;
    Ok(())
}

/// Puts the one line of a refusal. It has at most 92 bytes.
fn put_refusal(out: &mut Writer, told: Told) -> Result<(), Full>
    ensures put { PutsLine (refused_line told) out.old out.new result }
    ensures short { length (refused_line told) ≤ 92 }
{
    out.refused(told)
}

/// Puts the report of a text: that of its plan, or why it is refused.
fn put_report(heap: Global, out: &mut Writer, text: &[u8]) -> Result<(), Fault>
    requires room { IsWithin out.old }
    ensures lent { SameBuffer out.old out.new }
    ensures lines { Reports text.now (λ W lines. PutsTask W lines out.old out.new result) }
    ensures short { Reports text.now (λ W lines. length (bytes lines) ≤ page_size) }
    ensures law { Answers text.now (plan_of text.now) }
{
    match read_plan(text) {
        Ok(plan) => {
            let domain = ReducedProduct::new(Zonotope::new(), IntervalBox::new());
            put_plan(heap, out, text, &plan, domain)
        }
        Err(refusal) => {
            put_refusal(out, refusal.told())?;
            Ok(())
        }
    }
}

/// Puts the report of a plan's text on a page, and answers how many bytes it takes. A text that
/// spells no plan is answered by the one line of its refusal. A page of `PAGE` bytes has room for
/// every report.
pub fn report(heap: Global, text: &[u8], page: &mut [u8]) -> Result<usize, Fault>
    ensures printed { Reports text.now (λ W lines. Printed W lines page.old page.new result) }
    ensures within { IfOk result (λ n. n ≤ length page.old) }
    ensures room { page_size ≤ length page.old → Roomy result }
    ensures law { Answers text.now (plan_of text.now) }
    ensures sentence { (s : Sheet) (h : Spells text.now s) → Sentence (task s h.sound) }
{
    let mut out = Writer { buf: page, len: 0 };
    put_report(heap, &mut out, text)?;
    Ok(out.len)
}
