// One change of a file, read and judged by itself.
#![tactic(auto)]

ghost use Rattle.std.specs.Prelude.{◌≡◌, ◌≤◌, length};
ghost use Rattle.registry.specs.Tags.{entity, ipv4_network};
ghost use Rattle.registry.specs.Limits.{most_image, most_records};
ghost use Rattle.changes.specs.Limits.{most_changes};
ghost use Rattle.changes.specs.Change.{good_key};
ghost use Rattle.one_change.specs.Read.{Addition, Removal, ChangeAt};

use fields::{Field, step_at};
use image::index_from;
use registry::{AS_BLOCK, ENTITY, IPV4_NETWORK, PerRecord, width_of};
use words::numbers_at_most;

// Whether this is a whole record without defects 3, 4 and 5, and nothing after it: one record without a defect. The pass over it writes to the
// starts, which nobody reads.
fn good_record(r: &[u8], starts: &mut PerRecord) -> bool
    requires { (length r.now ≤ most_image) × (length starts.old ≡ most_records) }
    ensures judged { Addition r.now result }
    ensures full { length starts.new ≡ most_records }
{
    index_from(r, 0, starts) == Ok(1)
}

// Whether the key is of the tag's form: range, name or handle.
fn good_key(tag: u8, key: &[u8]) -> bool
    requires { (ipv4_network ≤ tag) × (tag ≤ entity) }
    ensures { result ≡ good_key tag key.now }
{
    if tag <= AS_BLOCK {
        let width = width_of(tag);
        if key.len() != 2 * width {
            return false;
        }
        return numbers_at_most(key, 0, key, width, width);
    }
    if tag == ENTITY {
        return texts::text_ok(key, 0x21);
    }
    hosts::host_ok(key)
}

// Whether this is a record tag's byte and then the bare key of one to remove.
pub fn good_removal(r: &[u8]) -> bool
    ensures { Removal r.now result }
{
    let [tag, key @ ..] = r else {
        return false;
    };
    if *tag < IPV4_NETWORK {
        return false;
    }
    if ENTITY < *tag {
        return false;
    }
    good_key(*tag, key)
}

// A change: its contents go from start up to end.
#[derive(Clone, Copy)]
pub enum Change {
    Add { start: usize, end: usize },
    Remove { start: usize, end: usize },
}

// The tags of a change: a record to add, the key of one to remove.
const ADDITION: u8 = 0x30;

const REMOVAL: u8 = 0x31;

// The change at a position of the file; nothing if it is malformed.
pub fn change_at(changes: &[u8], at: usize, starts: &mut PerRecord) -> Option<Change>
    requires { (at ≤ length changes.now) × (length changes.now ≤ most_changes) × (length starts.old ≡ most_records) }
    ensures read { ChangeAt changes.now at result }
    ensures full { length starts.new ≡ most_records }
{
    let Some(Field { tag, start, end }) = step_at(changes, at) else {
        return None;
    };
    let contents = &changes[start..end];
    match tag {
        ADDITION => good_record(contents, starts).then_some(Change::Add { start, end }),
        REMOVAL => good_removal(contents).then_some(Change::Remove { start, end }),
        _ => None,
    }
}
