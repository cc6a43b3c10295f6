//! A tube from its opening to its end: watches, launch, a list of calls, finish.
ghost use Rattle.std.specs.Prelude.{◌≡◌, ℕ, [], ◌∷◌, ◌++◌, take, IfOk, OnOk};
ghost use Rattle.tube.specs.Calls.{watched, watch_reply, watched_all, watch_replies, begun, called, reply, after, replies as answers};
ghost use Rattle.tube.specs.Flights.{flight_of};
ghost use Rattle.tube.specs.Summaries.{summary_of};
ghost use Rattle.tube.specs.Tables.{table_of, empty_table, ChangesOnlyTable};
ghost use Rattle.tube.specs.Tightness.{TubeTight};
ghost use Rattle.tube.specs.Promise.{Kept};

use super::call::{Call, Reply};
use super::launched::Launched;
use super::opened::Opened;
use super::summary::Summary;
use domains::domain::Domain;
use dynamics::keep_out::KeepOut;
use dynamics::model::Model;
use dynamics::start::Start;
use std::alloc::{AllocError, Global};

/// The replies to the watches and then to the calls, and what the tube tells at its end.
#[derive(Drop)]
pub struct Followed {
    pub replies: Vec<Reply>,
    pub summary: Summary,
}

/// Watches one keep-out.
fn watch_one<D: Domain>(tube: &mut Opened<D>, keep_out: &KeepOut) -> Reply
    ensures table { table_of tube.new.table ≡ watched (table_of tube.old.table) keep_out.now }
    ensures others { ChangesOnlyTable tube.old tube.new }
    ensures reply { result ≡ watch_reply (table_of tube.old.table) keep_out.now }
{
    tube.watch(keep_out)
        .map_or_else(Reply::Refused, |()| Reply::Watched)
}

/// Answers one call.
fn answer<D: Domain>(tube: &mut Launched<D>, call: Call) -> Reply
    ensures flight { flight_of D.form tube.new
        ≡ called D.sense tube.old.model (flight_of D.form tube.old) call }
    ensures model { tube.new.model ≡ tube.old.model }
    ensures reply { result ≡ reply D.sense (flight_of D.form tube.old) call }
{
    match call {
        Call::Step => tube.step().map_or_else(Reply::Refused, |()| Reply::Stepped),
        Call::Bound(direction) => Reply::Bounded(tube.bound(&direction)),
        Call::Finding(n) => tube.finding(n).map_or_else(Reply::Refused, Reply::Found),
    }
}

/// Watches each keep-out in turn, and notes each reply.
fn watch_all<D: Domain>(
    tube: &mut Opened<D>,
    watches: &[KeepOut],
    replies: &mut Vec<Reply>,
) -> Result<(), AllocError>
    ensures table { OnOk result
        (table_of tube.new.table ≡ watched_all (table_of tube.old.table) watches.now) }
    ensures others { OnOk result (ChangesOnlyTable tube.old tube.new) }
    ensures replies { OnOk result (replies.new.items
        ≡ replies.old.items ++ watch_replies (table_of tube.old.table) watches.now) }
{
    // A loop here and one below: over a closure the tube's state would have no name in the contract.
    for keep_out in watches {
        let reply = watch_one(tube, keep_out);
        replies.push(reply)?;
    }
    Ok(())
}

/// Answers each call in turn, and notes each reply.
fn answer_all<D: Domain>(
    tube: &mut Launched<D>,
    calls: &[Call],
    replies: &mut Vec<Reply>,
) -> Result<(), AllocError>
    ensures flight { OnOk result (flight_of D.form tube.new
        ≡ after D.sense tube.old.model (flight_of D.form tube.old) calls.now) }
    ensures replies { OnOk result (replies.new.items ≡ replies.old.items
        ++ answers D.sense tube.old.model (flight_of D.form tube.old) calls.now) }
{
    for call in calls {
        let reply = answer(tube, *call);
        replies.push(reply)?;
    }
    Ok(())
}

/// Opens a tube of a model from a start over a domain, watches each keep-out, launches it, answers
/// each call and finishes. The promise holds after the launch and after each of the calls.
pub fn follow<D: Domain + Drop>(
    heap: Global,
    model: Model,
    start: Start,
    domain: D,
    watches: &[KeepOut],
    calls: &[Call],
) -> Result<Followed, AllocError>
    ensures promise { (k : ℕ) → Kept D.sense model start (D.form domain) watches.now (after D.sense model (begun D.sense start (D.form domain) watches.now) (take k calls.now)) }
    ensures tight { TubeTight }
    ensures replies { IfOk result (λ o. o.replies.items ≡ watch_replies empty_table watches.now ++ answers D.sense model (begun D.sense start (D.form domain) watches.now) calls.now) }
    ensures summary { IfOk result (λ o. o.summary ≡ summary_of (after D.sense model (begun D.sense start (D.form domain) watches.now) calls.now)) }
{
    let mut replies = Vec::new(heap);
    let mut opened = Opened::open(model, start, domain);
    watch_all(&mut opened, watches, &mut replies)?;
    let mut tube = opened.launch();
    answer_all(&mut tube, calls, &mut replies)?;
    let summary = tube.finish();
    Ok(Followed { replies, summary })
}
