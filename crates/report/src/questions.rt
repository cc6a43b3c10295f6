//! What a report asks of a tube, and the keep-outs that the tube watches.
ghost use Rattle.std.specs.Prelude.{◌≡◌, ◌≤◌, ◌++◌, map, IfOk, OnOk};
ghost use Rattle.plan.specs.Keeps.{kept_list};
ghost use Rattle.report.specs.Questions as spec;

use domains::axis::SignedAxis;
use dynamics::keep_out::KeepOut;
use plan::keeps::Keeps;
use std::alloc::{AllocError, Global};
use tube::call::Call;

/// Asks for the bound on each signed axis.
fn ask_bounds(calls: &mut Vec<Call>) -> Result<(), AllocError>
    ensures { OnOk result (calls.new.items ≡ calls.old.items ++ spec.bound_calls) }
{
    for axis in SignedAxis::all() {
        calls.push(Call::Bound(axis.direction()))?;
    }
    Ok(())
}

/// Asks for so many steps, and for the bounds after each.
fn ask_steps(calls: &mut Vec<Call>, steps: usize) -> Result<(), AllocError>
    ensures { OnOk result (calls.new.items ≡ calls.old.items ++ spec.step_calls steps) }
{
    for _ in 0..steps {
        calls.push(Call::Step)?;
        ask_bounds(calls)?;
    }
    Ok(())
}

/// Asks for the finding of each of so many keep-outs.
#[tactic(auto, using(crate::proofs::Turns::push_turn))]
fn ask_findings(calls: &mut Vec<Call>, count: usize) -> Result<(), AllocError>
    ensures { OnOk result (calls.new.items ≡ calls.old.items ++ spec.finding_calls count) }
{
    for n in 0..count {
        calls.push(Call::Finding(n))?;
    }
    Ok(())
}

/// The calls of a report over so many steps with so many keep-outs.
pub(crate) fn questions(heap: Global, steps: usize, count: usize) -> Result<Vec<Call>, AllocError>
    ensures { IfOk result (λ v. v.items ≡ spec.questions steps count) }
{
    let mut calls = Vec::new(heap);
    ask_bounds(&mut calls)?;
    ask_steps(&mut calls, steps)?;
    ask_findings(&mut calls, count)?;
    Ok(calls)
}

/// The keep-outs of a plan, without their labels.
pub(crate) fn keep_outs(heap: Global, keeps: &Keeps) -> Result<Vec<KeepOut>, AllocError>
    ensures { IfOk result (λ v. v.items ≡ map (λ k. k.keep_out) (kept_list keeps.now)) }
{
    let mut list = Vec::new(heap);
    for keep in keeps.as_slice() {
        list.push(keep.keep_out)?;
    }
    Ok(list)
}
