//! The keep-outs of a plan, in order: at most sixteen.
ghost use Rattle.std.specs.Prelude.{◌≡◌, ◌+◌, ◌<◌, [], ◌∷◌, ◌++◌, length, replicate, pos, slice_get};
ghost use Rattle.plan.specs.Keeps.{kept_list};

use super::keep::{Keep, Span};
use dynamics::keep_out::KeepOut;
use fixed_vec::fixed_vec::FixedVec;

/// A list that only the reader fills.
// A type of its own and not the bare list: a plan's keep-outs are read by number, never changed.
#[derive(Clone, Copy)]
pub struct Keeps {
    pub(crate) list: FixedVec<Keep, 16>,
}

/// A keep-out whose numbers are all 0, with an empty label: what stands where none was put.
fn blank() -> Keep
    ensures label { (result.label.start ≡ 0) × (result.label.length ≡ 0) }
    ensures numbers { (result.keep_out.direction.entries ≡ replicate 4 (pos 0)) × (result.keep_out.threshold ≡ pos 0) }
{
    let Ok(keep_out) = KeepOut::new([0; 4], 0) else {
        unreachable()
    };
    Keep {
        label: Span {
            start: 0,
            length: 0,
        },
        keep_out,
    }
}

impl Keeps {
    /// No keep-outs.
    pub(crate) fn new() -> Keeps
        ensures { result.list.len ≡ 0 }
    {
        Keeps {
            list: FixedVec::new(blank()),
        }
    }

    /// One more keep-out.
    pub(crate) fn push(&mut self, keep: Keep)
        requires { self.old.list.len < 16 }
        ensures count { self.new.list.len ≡ self.old.list.len + 1 }
        ensures items { kept_list self.new ≡ kept_list self.old ++ (keep ∷ []) }
    {
        let Ok(()) = self.list.push(keep) else {
            unreachable()
        };
    }

    /// How many there are.
    pub fn count(&self) -> usize
        ensures value { result ≡ self.now.list.len }
        ensures items { result ≡ length (kept_list self.now) }
    {
        self.list.len()
    }

    /// The keep-outs in order.
    pub fn as_slice(&self) -> &[Keep]
        ensures { result.now ≡ kept_list self.now }
    {
        self.list.as_slice()
    }

    /// The keep-out of a number from 0.
    pub fn get(&self, n: usize) -> Option<Keep>
        ensures { result ≡ slice_get (kept_list self.now) n }
    {
        self.list.get(n)
    }
}
