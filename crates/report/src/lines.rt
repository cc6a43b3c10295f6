//! The lines of a report, put from what a tube replied.
ghost use Rattle.std.specs.Prelude.{◌≡◌, ℕ, ◌+◌, ◌*◌, ◌^◌, ◌≤◌, length, neg_ℤ, None, slice_index_or, unsigned_abs};
ghost use Rattle.domains.specs.Meaning.{Answer};
ghost use Rattle.plan.specs.Keeps.{kept_list};
ghost use Rattle.plan.specs.Report.{PutsLine};
ghost use Rattle.report.specs.Lines as spec;
ghost use Rattle.report.specs.Pages.{IsWithin, PutsLines};
ghost use Rattle.report.specs.Replies.{Limited, told_steps, told_keeps};

use super::answers::{bounds_at, finding_in};
use plan::keeps::Keeps;
use plan::writer::{Full, Writer};
use tube::call::Reply;
use tube::finding::Finding;

/// Minus a bound.
// apart from `ends`: with the four signs there, the proof of its result does not close
fn negated(bound: i64) -> i64
    requires { unsigned_abs bound ≤ 2 ^ 52 }
    ensures { result ≡ neg_ℤ bound }
{
    -bound
}

/// The eight numbers of a step: for each part minus the bound on its negative axis, then the
/// bound on its positive one; absent if one of them is.
fn ends(bounds: [Option<i64>; 8]) -> Option<[i64; 8]>
    requires { (a : ℕ) → Answer (slice_index_or bounds a None) (λ b. unsigned_abs b ≤ 2 ^ 52) }
    ensures { result ≡ spec.ends (λ a. slice_index_or bounds a None) }
{
    let [high1, low1, high2, low2, high3, low3, high4, low4] = bounds;
    Some([
        negated(low1?),
        high1?,
        negated(low2?),
        high2?,
        negated(low3?),
        high3?,
        negated(low4?),
        high4?,
    ])
}

/// Puts the line of a step, by its bounds on the signed axes.
fn put_step(out: &mut Writer, step: usize, bounds: [Option<i64>; 8]) -> Result<(), Full>
    requires { (a : ℕ) → Answer (slice_index_or bounds a None) (λ b. unsigned_abs b ≤ 2 ^ 52) }
    ensures { PutsLine (spec.step_text step (spec.ends (λ a. slice_index_or bounds a None))) out.old out.new result }
{
    match ends(bounds) {
        None => out.unbounded(step),
        Some(numbers) => out.step(step, numbers),
    }
}

/// Puts the line of a keep-out.
fn put_keep(out: &mut Writer, label: &[u8], finding: Finding) -> Result<(), Full>
    ensures { PutsLine (spec.keep_text label.now finding) out.old out.new result }
{
    match finding {
        Finding::Clear => out.clear(label),
        Finding::Open { step } => out.open(label, step),
    }
}

/// Puts the line of each step from 0 to the last, by the answers to the questions of a report: the
/// bounds of step 0 come first, and between those of two steps stands the reply to the step.
pub(crate) fn put_steps(out: &mut Writer, answers: &[Reply], steps: usize) -> Result<(), Full>
    requires room { IsWithin out.old }
    requires whole { 9 * steps + 8 ≤ length answers.now }
    requires limited { Limited answers.now }
    ensures { PutsLines (told_steps answers.now steps) out.old out.new result }
{
    // a step's bounds are cut by place: the library has no lemma on `chunks`
    for step in 0..steps + 1 {
        put_step(out, step, bounds_at(answers, 9 * step))?;
    }
    Ok(())
}

/// Puts the line of each keep-out, by the replies to what is found of each.
pub(crate) fn put_keeps(
    out: &mut Writer,
    text: &[u8],
    keeps: &Keeps,
    found: &[Reply],
) -> Result<(), Full>
    requires room { IsWithin out.old }
    requires whole { length found.now ≡ length (kept_list keeps.now) }
    ensures { PutsLines (told_keeps text.now (kept_list keeps.now) found.now) out.old out.new result }
{
    for (keep, reply) in keeps.as_slice().iter().zip(found) {
        put_keep(out, keep.label.part(text), finding_in(*reply))?;
    }
    Ok(())
}
