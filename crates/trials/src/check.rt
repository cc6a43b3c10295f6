//! Simulated runs against the bounds and findings of a tube.
ghost use Rattle.std.specs.Prelude.{◌≡◌, ◌+◌, ◌^◌, ◌≤◌, length, IfOk, OnOk};
ghost use Rattle.trials.specs.Counts.{looked};
ghost use Rattle.trials.specs.Seen.{escaping, entering, seen, seen_in};

use super::case::{Case, STEPS};
use super::tally::Tally;
use super::verdict::escapes;
use super::walk::Walk;
use domains::domain::Domain;
use dynamics::direction::Direction;
use dynamics::keep_out::KeepOut;
use tube::fault::Fault;
use tube::finding::Finding;
use tube::launched::Launched;
use tube::opened::Opened;

/// How many runs lie beyond a bound at a step.
fn count_escapes(direction: &Direction, bound: i64, walks: &[Walk], step: usize) -> u64
    ensures { result ≡ escaping direction.now bound step walks.now }
{
    walks
        .iter()
        .filter(|walk| escapes(direction, bound, walk.at(step)))
        .count() as u64
}

/// The runs against one bound.
fn check_bound(direction: &Direction, bound: Option<i64>, walks: &[Walk], step: usize) -> Tally
    ensures { result ≡ seen direction.now bound step walks.now }
{
    match bound {
        Some(bound) => Tally {
            present: 1,
            escapes: count_escapes(direction, bound, walks, step),
            ..Tally::default()
        },
        None => Tally {
            absent: 1,
            ..Tally::default()
        },
    }
}

/// The runs against the bounds of a tube in each direction.
fn check_step<D: Domain>(
    tube: &Launched<D>,
    directions: &[Direction],
    walks: &[Walk],
    step: usize,
) -> Tally
    requires { length directions.now ≤ 2 ^ 20 }
    ensures count { looked result ≡ length directions.now }
    ensures value { result ≡ seen_in (λ l. D.sense.bounded l (D.form tube.now.domain)) step walks.now directions.now }
{
    let mut tally = Tally::default();
    for direction in directions {
        tally += check_bound(direction, tube.bound(direction), walks, step);
    }
    tally
}

/// How many runs enter a keep-out.
fn count_entering(keep_out: &KeepOut, walks: &[Walk]) -> u64
    ensures { result ≡ entering keep_out.now walks.now }
{
    walks.iter().filter(|walk| walk.enters(keep_out)).count() as u64
}

/// The runs against the keep-outs that a tube finds clear.
fn check_findings<D: Domain>(
    tube: &Launched<D>,
    keep_outs: &[KeepOut],
    walks: &[Walk],
) -> Result<Tally, Fault>
    ensures { IfOk result (λ t. looked t ≡ 0) }
{
    let mut tally = Tally::default();
    for (n, keep_out) in keep_outs.iter().enumerate() {
        if tube.finding(n)? == Finding::Clear {
            let clear = Tally {
                clear: 1,
                entered: count_entering(keep_out, walks),
                ..Tally::default()
            };
            tally += clear;
        }
    }
    Ok(tally)
}

/// Watches each keep-out.
fn watch_all<D: Domain>(tube: &mut Opened<D>, keep_outs: &[KeepOut]) -> Result<(), Fault>
    ensures { OnOk result (tube.new.table.count ≡ tube.old.table.count + length keep_outs.now) }
{
    for keep_out in keep_outs {
        tube.watch(keep_out)?;
    }
    Ok(())
}

/// A tube over a domain, followed for all steps, against the runs of a case: 13 sets in 12
/// directions.
pub fn check_domain<D: Domain + Drop>(domain: D, case: &Case) -> Result<Tally, Fault>
    ensures { IfOk result (λ t. looked t ≡ 156) }
{
    let mut opened = Opened::open(case.model, case.start, domain);
    watch_all(&mut opened, &case.keep_outs)?;
    let mut tube = opened.launch();
    let mut tally = check_step(&tube, &case.directions, &case.walks, 0);
    for step in 1..=STEPS {
        tube.step()?;
        tally += check_step(&tube, &case.directions, &case.walks, step);
    }
    let found = check_findings(&tube, &case.keep_outs, &case.walks)?;
    tube.finish();
    Ok(tally + found)
}
