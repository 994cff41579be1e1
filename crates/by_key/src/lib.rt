// Where a key stands among the records of an image and those that a change file adds.
#![tactic(auto)]

ghost use Rattle.std.specs.Prelude.{◌≡◌};
ghost use Rattle.records.specs.Record.{follows};
ghost use Rattle.changes.specs.Change.{keyed, is_there};
ghost use Rattle.changes.specs.Rank.{rank_of};
ghost use Rattle.merged.specs.Held.{parsed_from, Recorded};
ghost use Rattle.merged.specs.Listed.{listed, MergedIn};
ghost use Rattle.by_key.specs.Key.{bare_key, Key};

use fields::Field;
use halves::middle;
use merged::Records;
use nesting::range_after;
use records::{bytes_of, handle_span, name_span};
use registry::{AS_BLOCK, ENTITY, HEAD, RANGE_OFFSET, width_of};
use words::bytes_at_most;

// What a record is sorted by: range, name or handle.
pub fn key_of(r: &[u8]) -> &[u8]
    requires { Recorded r.now }
    ensures { result.now ≡ bare_key (parsed_from r.now) }
{
    let tag = r[0];
    if tag <= AS_BLOCK {
        let end = RANGE_OFFSET + 2 * width_of(tag);
        return &r[RANGE_OFFSET..end];
    }
    let record = Field {
        tag,
        start: HEAD,
        end: r.len(),
    };
    if tag == ENTITY {
        return bytes_of(r, handle_span(r, record));
    }
    bytes_of(r, name_span(r, record))
}

// Whether the key b comes strictly after a in the order of the image.
fn key_after(p: u8, a: &[u8], q: u8, b: &[u8]) -> bool
    requires { Key p a.now × Key q b.now }
    ensures { result ≡ follows (keyed p a.now) (keyed q b.now) }
{
    if p != q {
        return p < q;
    }
    if p <= AS_BLOCK {
        return range_after(a, 0, b, 0, width_of(p));
    }
    !bytes_at_most(b, a)
}

// Whether a record comes before a key.
fn comes_before(r: &[u8], tag: u8, key: &[u8]) -> bool
    requires { Recorded r.now × Key tag key.now }
    ensures { result ≡ follows (parsed_from r.now) (keyed tag key.now) }
{
    key_after(r[0], key_of(r), tag, key)
}

// Whether a record comes after a key.
fn comes_after(r: &[u8], tag: u8, key: &[u8]) -> bool
    requires { Recorded r.now × Key tag key.now }
    ensures { result ≡ follows (keyed tag key.now) (parsed_from r.now) }
{
    key_after(tag, key, r[0], key_of(r))
}

// How many of the records come before a key. By halves, since they are sorted; the law of halves is shared with the names.
pub fn rank(records: &Records, tag: u8, key: &[u8]) -> usize
    requires { MergedIn records.now × Key tag key.now }
    ensures { result ≡ rank_of (keyed tag key.now) (listed records.now) }
{
    let mut low: u32 = 0;
    let mut high = records.count as u32;
    while low < high {
        let i = middle(low, high);
        if comes_before(records.record(i as usize), tag, key) {
            low = i + 1;
        } else {
            high = i;
        }
    }
    low as usize
}

// Whether the record at the rank of a key has this key.
pub fn is_there(records: &Records, at: usize, tag: u8, key: &[u8]) -> bool
    requires { MergedIn records.now × Key tag key.now × (at ≡ rank_of (keyed tag key.now) (listed records.now)) }
    ensures { result ≡ is_there (keyed tag key.now) (listed records.now) }
{
    if records.count <= at {
        return false;
    }
    !comes_after(records.record(at), tag, key)
}
