//! Stored cases of every refusal, and random plans against simulated runs that the loop permits.
#![tactic(auto)]

mod calls;
mod case;
mod check;
mod exact;
mod kind;
mod marks;
mod numbers;
mod random;
mod reading;
mod refine;
mod rounding;
mod sample;
mod show;
mod stacks;
mod successor;
mod tally;
mod texts;
mod tight;
mod trial;
mod trouble;
mod verdict;
mod walk;

use anyhow::anyhow;
use calls::check_calls;
use kind::Kind;
use numbers::check_numbers;
use random::Random;
use reading::check_texts;
use show::{show_kind, show_stored};
use trial::try_kind;

const KINDS: [Kind; 8] = [
    Kind::Contracting,
    Kind::Neutral,
    Kind::Growing,
    Kind::Whole,
    Kind::FarStarts,
    Kind::StrongGusts,
    Kind::Steep,
    Kind::Extreme,
];

fn main(rt: HostRuntime) -> anyhow::Result<()> {
    show_stored(&rt, "texts", check_texts(rt.alloc())?)?;
    show_stored(&rt, "numbers", check_numbers())?;
    let calls = check_calls().map_err(|_| anyhow!("no tube could be opened"))?;
    show_stored(&rt, "calls", calls)?;
    let mut random = Random::new(20260101);
    for kind in KINDS {
        let tried = try_kind(rt.alloc(), kind, &mut random);
        let outcome = tried.map_err(|_| anyhow!("a trial could not be made"))?;
        show_kind(&rt, kind, outcome)?;
    }
    Ok(())
}
