// The order of records that are no blocks.
#![tactic(auto)]

ghost use Rattle.std.specs.Prelude.{◌≡◌, ◌+◌, ◌≤◌, ◌<◌, not, length};
ghost use Rattle.registry.specs.Tags.{as_block, head_length};
ghost use Rattle.octets.specs.Number.{at_most};
ghost use Rattle.records.specs.Record.{key_of};
ghost use Rattle.records.specs.Layout.{record_on, LaidOut};
ghost use Rattle.record_order.specs.Keys.{key_span};

use records::{Layout, Span, bytes_of};
use registry::{ENTITY, HEAD};

// What a record that is no block is sorted by: the handle of an entity, the name of another.
fn key_of(r: Layout) -> Span
    requires { (r.start + head_length ≤ r.middle) × (r.middle + head_length ≤ r.end) × (as_block < r.tag) }
    ensures { result ≡ key_span r }
{
    if r.tag == ENTITY {
        Span {
            start: r.start + HEAD,
            end: r.middle,
        }
    } else {
        Span {
            start: r.middle + HEAD,
            end: r.end,
        }
    }
}

// Whether the record r of b comes strictly after the record p of a in the sorting, where they have one tag and are no blocks.
pub fn named_after(a: &[u8], p: Layout, b: &[u8], r: Layout) -> bool
    requires { LaidOut (length a.now) p × LaidOut (length b.now) r × (p.tag ≡ r.tag) × (as_block < r.tag) }
    ensures { result ≡ not (at_most (key_of (record_on b.now r)) (key_of (record_on a.now p))) }
{
    let before = bytes_of(a, key_of(p));
    let after = bytes_of(b, key_of(r));
    !words::bytes_at_most(after, before)
}
