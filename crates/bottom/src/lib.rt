// Bottom over a sound image: each block of the family is tested by a walk over its own children, which stops at the first address left over.
#![tactic(auto)]

ghost use Rattle.std.specs.Prelude.{◌≡◌, ◌≤◌, ◌<◌, length};
ghost use Rattle.registry.specs.Limits.{most_records};
ghost use Rattle.address.specs.Address.{numbers};
ghost use Rattle.forest.specs.Relations.{bottom as bottom_of};
ghost use Rattle.forest.specs.Scans.{gap_in};
ghost use Rattle.scans.specs.Standing.{blocks_in, Searchable};
ghost use Rattle.output.specs.Listing.{Collected};
ghost use Rattle.links.specs.Links.{Gathered, Numbered};
ghost use Rattle.bottom.specs.Testing.{Testable, range_at, leaves_from, holders_of};

use address::AddressRange;
use image::Run;
use links::{gather, links_of};
use registry::{MOST_RECORDS, PerRecord, width_of};
use scans::any_inside;
use words::number_at;

// Whether the children of block i leave an address from free to limit: from child to child, by the links.
fn children_leave(
    image: &[u8],
    family: u8,
    firsts: &PerRecord,
    links: &PerRecord,
    n: usize,
    i: usize,
    mut free: u128,
    limit: u128,
) -> bool
    requires { Testable image.now family firsts.now links.now n i × (free ≤ limit) }
    ensures { result ≡ leaves_from image.now family i free limit }
{
    let width = width_of(family);
    let end = links[i] as usize;
    let mut j = i + 1;
    while j < end {
        let child = firsts[j] as usize;
        if free < number_at(image, child, width) {
            return true;
        }
        let last = number_at(image, child + width, width);
        if limit <= last {
            return false;
        }
        free = free.max(last + 1);
        j = links[j] as usize;
    }
    true
}

// Whether block i is the smallest one that holds some address of the range: of those that both have, its children leave one.
fn leaves_gap(
    image: &[u8],
    family: u8,
    firsts: &PerRecord,
    links: &PerRecord,
    n: usize,
    i: usize,
    range: AddressRange,
) -> bool
    requires { Testable image.now family firsts.now links.now n i }
    ensures { result ≡ gap_in (blocks_in image.now family) (numbers range) (range_at image.now family i) }
{
    let width = width_of(family);
    let start = firsts[i] as usize;
    let limit = range
        .last
        .number()
        .min(number_at(image, start + width, width));
    let free = range.first.number().max(number_at(image, start, width));
    if limit < free {
        return false;
    }
    children_leave(image, family, firsts, links, n, i, free, limit)
}

// The record numbers of the blocks that are the smallest one holding some address of the range. The first block has the number from.
fn holders(
    image: &[u8],
    family: u8,
    from: u32,
    firsts: &PerRecord,
    n: usize,
    range: AddressRange,
    hits: &mut PerRecord,
) -> usize
    requires { Gathered image.now family firsts.now n × Numbered image.now family from n
        × (length hits.old ≡ most_records) }
    ensures { Collected hits.new (holders_of (blocks_in image.now family) (numbers range)) result }
{
    let links = links_of(image, family, firsts, n);
    let mut m: usize = 0;
    for i in 0..n {
        if leaves_gap(image, family, firsts, &links, n, i, range) {
            hits[m] = from + i as u32;
            m += 1;
        }
    }
    m
}

// Bottom: those blocks, where some block is strictly inside the range.
pub fn bottom(
    image: &[u8],
    starts: &PerRecord,
    blocks: Run,
    range: AddressRange,
    hits: &mut PerRecord,
) -> usize
    requires { Searchable image.now starts.now blocks range × (length hits.old ≡ most_records) }
    ensures { Collected hits.new (bottom_of (blocks_in image.now blocks.low) (numbers range)) result }
{
    if !any_inside(image, starts, blocks, range) {
        return 0;
    }
    let mut firsts = [0u32; MOST_RECORDS];
    let n = gather(starts, blocks, &mut firsts);
    holders(image, blocks.low, blocks.from, &firsts, n, range, hits)
}
