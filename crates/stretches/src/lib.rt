// The records of an index written one after another: those that stand so in the image in one stretch.
#![tactic(auto)]

ghost use Rattle.std.specs.Prelude.{◌≡◌, ◌≤◌, ◌<◌, length, get_or};
ghost use Rattle.registry.specs.Limits.{most_image};
ghost use Rattle.output.specs.Writing.{Written};
ghost use Rattle.merged.specs.Listed.{row_in};
ghost use Rattle.stretches.specs.Stretches.{StretchFrom, row_from, PutNext};

use merged::{Records, field_bytes};
use output::put_bytes;

// Records that stand one after another in the image: where the last of them ends, and the number of the first behind them.
#[derive(Clone, Copy)]
struct Stretch {
    end: usize,
    until: usize,
}

// Those from number i on. Each end is reckoned from a start of the index and not from the end before it, so that no read waits for another.
fn stretch_from(records: &Records, i: usize) -> Stretch
    requires { (i < records.now.count) × (get_or records.now.starts i 0 < length records.now.image.now)
        × (length records.now.image.now ≤ most_image) }
    ensures { StretchFrom records.now i result }
{
    let mut last = records.starts[i] as usize;
    for until in i + 1..records.count {
        let next = records.starts[until] as usize;
        let end = last + field_bytes(records.image, last).len();
        if next != end {
            return Stretch { end, until };
        }
        if records.image.len() <= next {
            return Stretch { end, until };
        }
        last = next;
    }
    Stretch {
        end: last + field_bytes(records.image, last).len(),
        until: records.count,
    }
}

// What was put: how many bytes, and the number of the first record that is left.
#[derive(Clone, Copy)]
struct Put {
    size: usize,
    until: usize,
}

// The record with number i, with those that follow it in the image too.
fn put_next(records: &Records, i: usize, out: &mut [u8]) -> Put
    requires { (i < records.now.count) × (length records.now.image.now ≤ most_image) × (length (row_from records.now i) ≤ length out.old) }
    ensures { PutNext records.now i out.old out.new result }
{
    let start = records.starts[i];
    if start < records.image.len() as u32 {
        let Stretch { end, until } = stretch_from(records, i);
        let size = put_bytes(&records.image[start as usize..end], out);
        return Put { size, until };
    }
    let size = put_bytes(records.record_at(start), out);
    Put { size, until: i + 1 }
}

// The records one after another.
pub fn put_records(records: &Records, out: &mut [u8]) -> usize
    requires { (length records.now.image.now ≤ most_image) × (length (row_in records.now) ≤ length out.old) }
    ensures { Written (row_in records.now) out.old out.new result }
{
    let mut at: usize = 0;
    let mut i: usize = 0;
    // From stretch to stretch, not from record to record.
    while i < records.count {
        let put = put_next(records, i, &mut out[at..]);
        at += put.size;
        i = put.until;
    }
    at
}
