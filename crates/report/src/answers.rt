//! What a tube replied, read by places.
ghost use Rattle.std.specs.Prelude.{◌≡◌, ◌+◌, ◌≤◌, map, length};
ghost use Rattle.std.specs.List.{range_with_len};
ghost use Rattle.report.specs.Replies as spec;

use std::array::from_fn;
use tube::call::Reply;
use tube::finding::Finding;

/// The bound in a reply; a reply of another kind has none.
fn bound_in(reply: Reply) -> Option<i64>
    ensures { result ≡ spec.bound_in reply }
{
    match reply {
        Reply::Bounded(bound) => bound,
        _ => None,
    }
}

/// The finding in a reply; a reply of another kind never says clear.
pub(crate) fn finding_in(reply: Reply) -> Finding
    ensures { result ≡ spec.finding_in reply }
{
    match reply {
        Reply::Found(finding) => finding,
        _ => Finding::Open { step: 0 },
    }
}

/// The eight bounds that begin at a place.
pub(crate) fn bounds_at(replies: &[Reply], at: usize) -> [Option<i64>; 8]
    requires { at + 8 ≤ length replies.now }
    ensures { result ≡ map (spec.bounds_at replies.now at) (range_with_len 0 8) }
{
    from_fn(|axis| bound_in(replies[at + axis]))
}
