// The final image judged by the index of its records, without being made: too long, too many records, or an overlap.
#![tactic(auto)]

ghost use Rattle.std.specs.Prelude.{◌≡◌, true, ◌+◌, ◌≤◌, length};
ghost use Rattle.registry.specs.Tags.{as_block};
ghost use Rattle.registry.specs.Limits.{most_records};
ghost use Rattle.records.specs.Record.{range_of};
ghost use Rattle.nesting.specs.Nest.{nest_of};
ghost use Rattle.placing.specs.Step.{nest_in};
ghost use Rattle.image.specs.Image.{starts_right, image_of};
ghost use Rattle.image.specs.Checking.{verdict_of, numbers_in};
ghost use Rattle.merged.specs.Held.{parsed_from, Recorded};
ghost use Rattle.merged.specs.Listed.{listed, row_in, image_in, MergedIn};
ghost use Rattle.overlaps.specs.Overlaps.{OpenBlocks, Among, open_last, Overlaps};

use merged::Records;
use registry::{
    AS_BLOCK, Defect, Flaw, MOST_COUNT, MOST_IMAGE, MOST_RECORDS, PerRecord, RANGE_OFFSET, width_of,
};
use words::numbers_at_most;

// Under how many of the open blocks of its tag the block r lies, the innermost last; None where it overlaps one without lying inside it.
// The search of nesting::nest, over records that are looked up in two files.
fn nest(records: &Records, r: &[u8], stack: &PerRecord, depth: usize) -> Option<usize>
    requires { Among records.now stack.now depth r.now }
    ensures { result ≡ nest_of (open_last records.now stack.now) (range_of (parsed_from r.now)) depth }
{
    let width = width_of(r[0]);
    for d in (0..depth).rev() {
        let open = records.record_at(stack[d]);
        if numbers_at_most(r, RANGE_OFFSET, open, RANGE_OFFSET + width, width) {
            if numbers_at_most(r, RANGE_OFFSET + width, open, RANGE_OFFSET + width, width) {
                return Some(d + 1);
            }
            return None;
        }
    }
    Some(0)
}

// The record r after one of the tag `before`: only a block after a block of its tag is nested.
fn nest_after(
    records: &Records,
    r: &[u8],
    stack: &PerRecord,
    before: u8,
    depth: usize,
) -> Option<usize>
    requires { (depth ≤ most_records) × Recorded r.now
        × (before ≡ (parsed_from r.now).tag → before ≤ as_block → OpenBlocks records.now stack.now depth before) }
    ensures { result ≡ nest_in (open_last records.now stack.now) before (parsed_from r.now) depth }
{
    if AS_BLOCK < r[0] {
        return Some(0);
    }
    if r[0] != before {
        return Some(0);
    }
    nest(records, r, stack, depth)
}

// The number of the first of the first n records that overlaps an earlier one.
fn first_overlap(records: &Records, n: usize) -> Option<usize>
    requires { MergedIn records.now × (n ≤ most_records) × (n ≤ records.now.count) }
    ensures { Overlaps (listed records.now) n result }
{
    let mut stack = [0u32; MOST_RECORDS];
    let mut depth: usize = 0;
    let mut family: u8 = 0;
    for i in 0..n {
        let start = records.starts[i];
        let r = records.record_at(start);
        match nest_after(records, r, &stack, family, depth) {
            Some(d) => {
                stack[d] = start;
                depth = d + 1;
                family = r[0];
            }
            None => return Some(i),
        }
    }
    None
}

// The verdict on the final image of so many bytes.
pub fn final_verdict(records: &Records, size: usize) -> Result<u32, Flaw>
    requires { MergedIn records.now × (starts_right records.now.image.now ≡ true) × (size ≡ 4 + length (row_in records.now)) }
    ensures { numbers_in result ≡ verdict_of (image_of (image_in records.now)) }
{
    if MOST_IMAGE < size {
        return Err(Defect::TooLong.at(0));
    }
    let few = records.count.min(MOST_RECORDS);
    if let Some(k) = first_overlap(records, few) {
        return Err(Defect::Crossing.at(k as u32));
    }
    if MOST_RECORDS < records.count {
        return Err(Defect::BadRecord.at(MOST_COUNT));
    }
    Ok(records.count as u32)
}
