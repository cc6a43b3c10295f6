//! A tube from open to finish, by the calls open, watch, launch, step, finding and finish, over the
//! reduced product of zonotope and interval box.
#![tactic(auto)]

ghost use Rattle.std.specs.Prelude.{◌≡◌, IfOk, None};

use domains::interval_box::IntervalBox;
use dynamics::keep_out::KeepOut;
use dynamics::refusal::Refusal;
use layers::product::ReducedProduct;
use samples::values::{plan_model, plan_start};
use tube::fault::Fault;
use tube::finding::Finding;
use tube::opened::Opened;
use tube::summary::Summary;
use zonotope::zonotope::Zonotope;

type Stack = ReducedProduct<Zonotope, IntervalBox>;

/// The worked plan's tube, opened.
fn opened() -> Result<Opened<Stack>, Refusal>
    ensures { IfOk result (λ t. (t.table.count ≡ 0) × (t.domain.left.stored ≡ None) × (t.domain.right.limits ≡ None)) }
{
    Ok(Opened::open(
        plan_model()?,
        plan_start()?,
        ReducedProduct::new(Zonotope::new(), IntervalBox::new()),
    ))
}

fn print_finding(rt: &impl Print, finding: Result<Finding, Fault>) -> std::io::Result<()> {
    match finding {
        Ok(Finding::Clear) => println!(rt; "clear"),
        Ok(Finding::Open { step }) => println!(rt; "open\t{step}"),
        Err(_) => println!(rt; "refused"),
    }
}

fn main(rt: HostRuntime) -> anyhow::Result<()> {
    let mut tube = opened()?;
    for threshold in [112, 110] {
        tube.watch(&KeepOut::new([1, 0, 0, 0], threshold)?)?;
    }
    let mut tube = tube.launch();
    tube.step()?;
    for n in 0..3 {
        print_finding(&rt, tube.finding(n))?;
    }
    let Summary { steps, clear, open } = tube.finish();
    println!(rt; "steps\t{steps}\tclear\t{clear}\topen\t{open}")?;
    Ok(())
}
