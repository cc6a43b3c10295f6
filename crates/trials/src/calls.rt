//! The limits of a tube's calls and of the report writer.
ghost use Rattle.std.specs.Prelude.{◌≡◌, ◌+◌, ◌^◌, ◌≤◌, IfOk};
ghost use Rattle.trials.specs.Counts.{total};

use super::marks::Marks;
use domains::interval_box::IntervalBox;
use dynamics::channel::Channel;
use dynamics::keep_out::KeepOut;
use dynamics::model::Model;
use dynamics::refusal::Refusal;
use dynamics::start::Start;
use plan::writer::Writer;
use tube::fault::Fault;
use tube::opened::Opened;

/// A tube at rest, opened.
fn at_rest() -> Result<Opened<IntervalBox>, Refusal>
    ensures { IfOk result (λ t. t.table.count ≡ 0) }
{
    // Not the samples' calm model: what that refuses is a test's failure, and no refusal.
    let calm = Channel {
        gains: [0; 4],
        centre: 0,
        radius: 0,
    };
    let model = Model::new([[0; 4]; 4], calm, calm)?;
    let start = Start::new([0; 4], [0; 4])?;
    Ok(Opened::open(model, start, IntervalBox::new()))
}

/// As many calls as are accepted, numbered from 0, and one more, which is refused.
fn check_limit<F: FnMut(usize) -> Option<Fault>>(
    accepted: usize,
    fault: Fault,
    mut call: F,
) -> Marks
    requires few { accepted ≤ 2 ^ 20 }
    requires callable { F.IsAlwaysCallable call }
    ensures { total result ≡ accepted + 1 }
{
    let mut marks = Marks::default();
    for n in 0..=accepted {
        marks.mark(Some(call(n) == (n == accepted).then_some(fault)));
    }
    marks
}

/// A line of 16 bytes in a buffer of 16, once and again, and in one of 15.
fn check_lines() -> Marks
    ensures { total result ≡ 4 }
{
    let mut marks = Marks::default();
    let mut page = [0u8; 16];
    let mut out = Writer::over(&mut page);
    marks.mark(Some(out.clear(b"stop").is_ok()));
    marks.mark(Some(out.clear(b"stop").err().map(|full| full.number()) == Some(14)));
    marks.mark(Some(out.text() == b"keep\tstop\tclear\n".as_slice()));
    let mut short = [0u8; 15];
    let mut out = Writer::over(&mut short);
    marks.mark(Some(out.clear(b"stop").err().map(|full| full.number()) == Some(14)));
    marks
}

/// All of these: 17 watches, 17 findings and 257 steps, of which the last is refused, and 4 lines.
pub fn check_calls() -> Result<Marks, Refusal>
    ensures { IfOk result (λ m. total m ≡ 295) }
{
    let mut opened = at_rest()?;
    let keep_out = KeepOut::new([1, 0, 0, 0], 1)?;
    let watches = check_limit(16, Fault::WatchLimit, |_| opened.watch(&keep_out).err());
    let mut tube = opened.launch();
    let findings = check_limit(16, Fault::NoKeepOut, |n| tube.finding(n).err());
    let steps = check_limit(256, Fault::StepLimit, |_| tube.step().err());
    tube.finish();
    Ok(watches + findings + steps + check_lines())
}
