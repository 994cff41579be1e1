// Links over the blocks of a family: from each block to the first later one that does not lie inside it. A walk by them goes over a block's
// own children.
#![tactic(auto)]

ghost use Rattle.std.specs.Prelude.{◌≡◌, ◌+◌, ◌<◌, length};
ghost use Rattle.registry.specs.Limits.{most_records};
ghost use Rattle.scans.specs.Standing.{blocks_in};
ghost use Rattle.links.specs.Links.{Link, Linked, Reachable, Started, Gathered};

use image::Run;
use registry::{MOST_RECORDS, PerRecord, width_of};
use scans::range_start;
use words::numbers_at_most;

// Where the ranges of the blocks start.
pub fn gather(starts: &PerRecord, blocks: Run, firsts: &mut PerRecord) -> usize
    requires { Reachable starts.now blocks × (length firsts.old ≡ most_records) }
    ensures { Started starts.now blocks firsts.new result }
{
    let mut n: usize = 0;
    for i in blocks.from..blocks.until {
        firsts[n] = range_start(starts, i) as u32;
        n += 1;
    }
    n
}

// The first block after block i that does not lie inside it: from child to child, by the links of later blocks, so that no range counts the turns.
fn hop(image: &[u8], family: u8, firsts: &PerRecord, links: &PerRecord, n: usize, i: usize) -> usize
    requires { Gathered image.now family firsts.now n × (i < n) × Linked (blocks_in image.now family) links.now (i + 1) }
    ensures { Link (blocks_in image.now family) i result }
{
    let width = width_of(family);
    let end = firsts[i] as usize + width;
    let mut j = i + 1;
    while j < n {
        if !numbers_at_most(image, firsts[j] as usize, image, end, width) {
            return j;
        }
        j = links[j] as usize;
    }
    j
}

// For each block the first later one that does not lie inside it. Each is hopped over once, by the block around it.
pub fn links_of(image: &[u8], family: u8, firsts: &PerRecord, n: usize) -> PerRecord
    requires { Gathered image.now family firsts.now n }
    ensures { Linked (blocks_in image.now family) result 0 }
{
    let mut links = [0u32; MOST_RECORDS];
    for i in (0..n).rev() {
        let next = hop(image, family, firsts, &links, n, i);
        links[i] = next as u32;
    }
    links
}
