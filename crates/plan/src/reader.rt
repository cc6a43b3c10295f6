//! The reader: from the bytes of a text to a plan, or to the first fault.
ghost use Rattle.std.specs.Prelude.{◌≡◌, ◌+◌, ◌<◌, ◌≤◌, true, [], Ok};
ghost use Rattle.plan.specs.Readings.{Reads, line_by};
ghost use Rattle.plan.specs.Values.{row_of, gust_of, start_of, late_of};
ghost use Rattle.plan.specs.Plans.{Sheet, rows_at, loop_at, begin_at, tail_at, sheet_at, plan_of, plain_loop, plain_begin, plain_late, plain_tail, sheet, is_late};
ghost use Rattle.plan.specs.Shown.{shown};
ghost use Rattle.plan.specs.Spelling.{Answers, Sound, plan_text};

use super::faults::{LineFault, Refusal};
use super::fields::label;
use super::keep::{Keep, Span};
use super::keeps::Keeps;
use super::late::Late;
use super::lines::Lines;
use super::plan::{Plan, Tail};
use super::record::{Expected, Record, read_record};
use super::values::{gust, keep_out, row, start, steps};
use dynamics::channel::Channel;
use dynamics::model::Model;
use dynamics::start::Start;

/// The longest text that is read, in bytes.
const LONGEST: usize = 8192;

impl<'a> Lines<'a> {
    // One method for each kind of line: over a closure each call would want a lemma of its own.
    /// The row of a number from 1.
    fn row(&mut self, i: usize) -> Result<[i64; 4], LineFault>
        requires { i ≤ 4 }
        ensures text { self.new.text ≡ self.old.text }
        ensures value { Reads (λ v. v) (line_by (row_of i)) self.old self.new result }
    {
        let (line, next) = self.split()?;
        let row = row(line, i)?;
        *self = next;
        Ok(row)
    }

    /// The channel of a number from 1.
    fn channel(&mut self, j: usize) -> Result<Channel, LineFault>
        requires { j ≤ 2 }
        ensures text { self.new.text ≡ self.old.text }
        ensures value { Reads (λ v. v) (line_by (gust_of j)) self.old self.new result }
    {
        let (line, next) = self.split()?;
        let channel = gust(line, j)?;
        *self = next;
        Ok(channel)
    }

    /// The part of the start of a number from 1.
    fn part(&mut self, i: usize) -> Result<(i64, i64), LineFault>
        requires { i ≤ 4 }
        ensures text { self.new.text ≡ self.old.text }
        ensures value { Reads (λ v. v) (line_by (start_of i)) self.old self.new result }
    {
        let (line, next) = self.split()?;
        let part = start(line, i)?;
        *self = next;
        Ok(part)
    }

    /// The four rows.
    // Written out: of an error `try_from_fn` does not say that it is the first.
    fn rows(&mut self) -> Result<[[i64; 4]; 4], LineFault>
        ensures text { self.new.text ≡ self.old.text }
        ensures value { Reads (λ v. v) rows_at self.old self.new result }
    {
        Ok([self.row(1)?, self.row(2)?, self.row(3)?, self.row(4)?])
    }

    /// The model: four rows and two channels.
    fn model(&mut self) -> Result<Model, LineFault>
        ensures text { self.new.text ≡ self.old.text }
        ensures value { Reads plain_loop loop_at self.old self.new result }
    {
        let matrix = self.rows()?;
        let first = self.channel(1)?;
        let second = self.channel(2)?;
        let Ok(model) = Model::new(matrix, first, second) else {
            unreachable()
        };
        Ok(model)
    }

    /// The start: four parts.
    // Written out for the same reason as the rows.
    fn start(&mut self) -> Result<Start, LineFault>
        ensures text { self.new.text ≡ self.old.text }
        ensures value { Reads plain_begin begin_at self.old self.new result }
    {
        let (p1, w1) = self.part(1)?;
        let (p2, w2) = self.part(2)?;
        let (p3, w3) = self.part(3)?;
        let (p4, w4) = self.part(4)?;
        let Ok(start) = Start::new([p1, p2, p3, p4], [w1, w2, w3, w4]) else {
            unreachable()
        };
        Ok(start)
    }

    /// A keep-out or the steps.
    fn late(&mut self, expected: Expected) -> Result<Late, LineFault>
        requires { is_late expected ≡ true }
        ensures text { self.new.text ≡ self.old.text }
        ensures value { Reads (plain_late self.old.text.now) (line_by (late_of expected)) self.old self.new result }
    {
        let from = self.text.len() - self.rest.len();
        let (line, next) = self.split()?;
        match read_record(line, expected)? {
            Record::Keep {
                label: name,
                entries,
                threshold,
            } => {
                let length = label(name)?.len();
                let keep_out = keep_out(entries, threshold)?;
                let start = from + 5;
                *self = next;
                Ok(Late::Keep(Keep {
                    label: Span { start, length },
                    keep_out,
                }))
            }
            Record::Steps { count } => {
                let steps = steps(count)?;
                *self = next;
                Ok(Late::Steps(steps))
            }
            _ => unreachable(),
        }
    }

    /// The keep-outs, up to sixteen, and the steps.
    fn tail(&mut self) -> Result<Tail, LineFault>
        ensures text { self.new.text ≡ self.old.text }
        ensures value { Reads (plain_tail self.old.text.now) (tail_at 16 []) self.old self.new result }
    {
        let mut keeps = Keeps::new();
        while keeps.count() < 16 {
            match self.late(Expected::KeepOrSteps)? {
                Late::Keep(keep) => keeps.push(keep),
                Late::Steps(steps) => return Ok(Tail { keeps, steps }),
            }
        }
        match self.late(Expected::OnlySteps)? {
            Late::Keep(_) => unreachable(),
            Late::Steps(steps) => Ok(Tail { keeps, steps }),
        }
    }

    /// All records of a plan.
    fn plan(&mut self) -> Result<Plan, LineFault>
        ensures text { self.new.text ≡ self.old.text }
        ensures value { Reads (sheet self.old.text.now) sheet_at self.old self.new result }
    {
        let model = self.model()?;
        let start = self.start()?;
        let tail = self.tail()?;
        Ok(Plan {
            model,
            start,
            keeps: tail.keeps,
            steps: tail.steps,
        })
    }
}

/// The plan that a text says, or why it says none.
#[tactic(auto, using(crate::proofs::Texts::text_read))]
pub fn read_plan(text: &[u8]) -> Result<Plan, Refusal>
    ensures value { shown (sheet text.now) result ≡ plan_of text.now }
    ensures written { (s : Sheet) → Sound s → plan_of (plan_text s) ≡ Ok s }
    ensures law { Answers text.now (shown (sheet text.now) result) }
{
    if text.len() > LONGEST {
        return Err(Refusal::TooLong);
    }
    let mut lines = Lines {
        text,
        rest: text,
        number: 0,
    };
    match lines.plan() {
        Err(fault) => Err(Refusal::Line {
            line: lines.number + 1,
            fault,
        }),
        Ok(plan) => {
            if lines.rest.is_empty() {
                Ok(plan)
            } else {
                let line = lines.number + 1;
                Err(Refusal::Following { line })
            }
        }
    }
}
