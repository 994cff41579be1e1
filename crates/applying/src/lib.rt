// The changes of a file applied one after another to the records.
#![tactic(auto)]

ghost use Rattle.std.specs.Prelude.{◌≡◌, true, ◌+◌, ◌-◌, ◌≤◌, ◌<◌, length, get_or};
ghost use Rattle.std.proofs.Math.Seq.{slice};
ghost use Rattle.registry.specs.Limits.{most_records};
ghost use Rattle.changes.specs.Limits.{most_changes, most_entries};
ghost use Rattle.merged.specs.Held.{Recorded};
ghost use Rattle.merged.specs.Listed.{MergedIn};
ghost use Rattle.by_key.specs.Key.{Key};
ghost use Rattle.one_change.specs.Read.{adding, removing};
ghost use Rattle.applying.specs.Steps.{Step, AppliedAt, AppliedTo};

use by_key::{is_there, key_of, rank};
use merged::Records;
use one_change::{Change, change_at};
use registry::{MOST_IMAGE, PerRecord};

// The record in a part of the change file added; false if its key is there already. It has no value to hand out, so a bool says it.
fn add(records: &mut Records, start: usize, end: usize) -> bool
    requires { MergedIn records.old × (records.old.count < most_entries) × (start ≤ end) × (end ≤ length records.old.changes.now)
        × (length records.old.changes.now ≤ most_changes) × Recorded (slice start end records.old.changes.now) }
    ensures { Step (adding records.old.changes.now start end) records.old records.new (records.old.count + 1) result }
{
    let r = &records.changes[start..end];
    let tag = r[0];
    let key = key_of(r);
    let at = rank(records, tag, key);
    if is_there(records, at, tag, key) {
        return false;
    }
    records.insert(at, (MOST_IMAGE + start) as u32);
    true
}

// The record of a key removed; false if it isn't there.
fn remove(records: &mut Records, start: usize, end: usize) -> bool
    requires { MergedIn records.old × (start < end) × (end ≤ length records.old.changes.now)
        × Key (get_or records.old.changes.now start 0) (slice (start + 1) end records.old.changes.now) }
    ensures { Step (removing records.old.changes.now start end) records.old records.new (records.old.count - 1) result }
{
    let tag = records.changes[start];
    let key = &records.changes[start + 1..end];
    let at = rank(records, tag, key);
    if !is_there(records, at, tag, key) {
        return false;
    }
    records.remove(at);
    true
}

// The change at a position applied: where it ends; nothing if it cannot be applied.
fn apply_at(records: &mut Records, at: usize, starts: &mut PerRecord) -> Option<usize>
    requires { MergedIn records.old × (at < length records.old.changes.now) × (records.old.count < most_entries)
        × (length records.old.changes.now ≤ most_changes) × (length starts.old ≡ most_records) }
    ensures applied { AppliedAt at records.old records.new result }
    ensures merged { MergedIn records.new }
    ensures full { length starts.new ≡ most_records }
{
    match change_at(records.changes, at, starts)? {
        Change::Add { start, end } => add(records, start, end).then_some(end),
        Change::Remove { start, end } => remove(records, start, end).then_some(end),
    }
}

// The changes of the file applied; or the offset of the first that cannot be applied.
pub fn apply(records: &mut Records, starts: &mut PerRecord) -> Result<(), usize>
    requires { MergedIn records.old × (records.old.count ≤ most_records) × (length records.old.changes.now ≤ most_changes)
        × (length starts.old ≡ most_records) }
    ensures applied { AppliedTo records.old records.new result }
    ensures merged { MergedIn records.new }
{
    let mut at = 0;
    // From change to change, each where the one before it ends.
    while at < records.changes.len() {
        let Some(end) = apply_at(records, at, starts) else {
            return Err(at);
        };
        at = end;
    }
    Ok(())
}
