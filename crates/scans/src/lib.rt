// Lookup, up, top and down over a sound image, and whether bottom has an answer, each by one pass over the records of a tag, which are sorted
// by their first address.
#![tactic(auto)]

ghost use Rattle.std.specs.Prelude.{◌≡◌, ◌+◌, ◌≤◌, ◌<◌, length, get_or};
ghost use Rattle.std.specs.Option.{option_to_list};
ghost use Rattle.registry.specs.Tags.{range_offset};
ghost use Rattle.registry.specs.Limits.{most_image, most_records};
ghost use Rattle.octets.specs.Lists.{any as any_of};
ghost use Rattle.address.specs.Address.{numbers};
ghost use Rattle.address.specs.Ranges.{strictly_inside};
ghost use Rattle.forest.specs.Relations.{down as down_of};
ghost use Rattle.scans.specs.Around.{around_in};
ghost use Rattle.scans.specs.Standing.{blocks_in, Searchable};
ghost use Rattle.output.specs.Listing.{Collected};
ghost use Rattle.scans.specs.Passing.{strict_by, first_by};

use address::{AddressRange, at_least_at};
use containment::{keeps, strictly_inside, surrounds};
use image::Run;
use registry::{PerRecord, RANGE_OFFSET};

// Where the range of a block starts, by its record number.
pub fn range_start(starts: &PerRecord, number: u32) -> usize
    requires { (number < most_records) × (get_or starts.now number 0 ≤ most_image) }
    ensures { result ≡ get_or starts.now number 0 + range_offset }
{
    starts[number as usize] as usize + RANGE_OFFSET
}

// Which of the blocks around a range is asked: the last that covers it, the last strictly around it, or the first such.
#[derive(Clone, Copy)]
pub enum Around {
    Lookup,
    Up,
    Top,
}

impl Around {
    // Whether it has to be strictly around the range.
    fn is_strict(self) -> bool
        ensures { result ≡ strict_by self }
    {
        matches!(self, Around::Up | Around::Top)
    }

    // Whether it is the first such block.
    fn is_first(self) -> bool
        ensures { result ≡ first_by self }
    {
        matches!(self, Around::Top)
    }
}

// Lookup, up and top: one block around the range, or none.
pub fn find_around(
    image: &[u8],
    starts: &PerRecord,
    blocks: Run,
    range: AddressRange,
    which: Around,
) -> Option<u32>
    requires { Searchable image.now starts.now blocks range }
    ensures { option_to_list result ≡ around_in which (blocks_in image.now blocks.low) (numbers range) }
{
    let width = registry::width_of(blocks.low);
    let strict = which.is_strict();
    let first = which.is_first();
    let mut found = None;
    for i in blocks.from..blocks.until {
        let at = range_start(starts, i);
        if !at_least_at(range.first, image, at, width) {
            return found;
        }
        if surrounds(image, at, width, range, strict) {
            if first {
                return Some(i);
            }
            found = Some(i);
        }
    }
    found
}

// Down: the blocks strictly inside the range, without those inside the last one kept.
pub fn children(
    image: &[u8],
    starts: &PerRecord,
    blocks: Run,
    range: AddressRange,
    hits: &mut PerRecord,
) -> usize
    requires { Searchable image.now starts.now blocks range × (length hits.old ≡ most_records) }
    ensures { Collected hits.new (down_of (blocks_in image.now blocks.low) (numbers range)) result }
{
    let width = registry::width_of(blocks.low);
    let mut n: usize = 0;
    let mut kept: usize = 0;
    for i in blocks.from..blocks.until {
        let at = range_start(starts, i);
        if !at_least_at(range.last, image, at, width) {
            return n;
        }
        if keeps(image, at, width, range, n, kept) {
            hits[n] = i;
            n += 1;
            kept = at;
        }
    }
    n
}

// Whether some block is strictly inside the range.
pub fn any_inside(image: &[u8], starts: &PerRecord, blocks: Run, range: AddressRange) -> bool
    requires { Searchable image.now starts.now blocks range }
    ensures { result ≡ any_of (λ b. strictly_inside b.range (numbers range)) (blocks_in image.now blocks.low) }
{
    let width = registry::width_of(blocks.low);
    for i in blocks.from..blocks.until {
        let start = range_start(starts, i);
        if !at_least_at(range.last, image, start, width) {
            return false;
        }
        if strictly_inside(image, start, width, range) {
            return true;
        }
    }
    false
}
