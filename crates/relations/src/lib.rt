// Lookup, up, top, down and bottom over a sound image, reported to a lent list.
#![tactic(auto)]

ghost use Rattle.std.specs.Prelude.{true, ◌≡◌, ◌≤◌, length};
ghost use Rattle.registry.specs.Limits.{most_records};
ghost use Rattle.registry.specs.Tags.{is_block};
ghost use Rattle.address.specs.Address.{number, numbers};
ghost use Rattle.output.specs.Listing.{Reported, Collected};
ghost use Rattle.scans.specs.Around.{around_in};
ghost use Rattle.scans.specs.Standing.{blocks_in, Searchable};
ghost use Rattle.relations.specs.Finding.{found_in, inside_of};

use address::AddressRange;
use entries::SoundImage;
use image::Run;
use output::{NoRoom, report, report_found};
use registry::{MOST_RECORDS, PerRecord, Relation};
use scans::{Around, find_around};

// What is asked of the blocks of a family and a range: the four relations as every call has them, and lookup beside them.
#[derive(Clone, Copy)]
pub enum Finding {
    Lookup,
    Relation(Relation),
}

// Which of the blocks strictly inside a range are asked: those that no other one there holds, or those that hold no other one.
#[derive(Clone, Copy)]
enum Inside {
    Down,
    Bottom,
}

// The block that lookup, up or top finds, reported to the list.
fn list_around(
    image: &[u8],
    starts: &PerRecord,
    blocks: Run,
    range: AddressRange,
    which: Around,
    list: &mut [u32],
) -> Result<u32, NoRoom>
    requires { Searchable image.now starts.now blocks range }
    ensures { Reported (around_in which (blocks_in image.now blocks.low) (numbers range)) list.old list.new result }
{
    report_found(find_around(image, starts, blocks, range, which), list)
}

// The blocks that down, or bottom, finds.
fn collect(
    image: &[u8],
    starts: &PerRecord,
    blocks: Run,
    range: AddressRange,
    which: Inside,
    hits: &mut PerRecord,
) -> usize
    requires { Searchable image.now starts.now blocks range × (length hits.old ≡ most_records) }
    ensures { Collected hits.new (inside_of which (blocks_in image.now blocks.low) (numbers range)) result }
{
    match which {
        Inside::Down => scans::children(image, starts, blocks, range, hits),
        Inside::Bottom => bottom::bottom(image, starts, blocks, range, hits),
    }
}

// They are reported to the list. With two calls of it the compiler leaves it a function, so that its arrays take no stack where at most one
// block is found.
fn list_inside(
    image: &[u8],
    starts: &PerRecord,
    blocks: Run,
    range: AddressRange,
    which: Inside,
    list: &mut [u32],
) -> Result<u32, NoRoom>
    requires { Searchable image.now starts.now blocks range }
    ensures { Reported (inside_of which (blocks_in image.now blocks.low) (numbers range)) list.old list.new result }
{
    let mut hits = [0u32; MOST_RECORDS];
    let n = collect(image, starts, blocks, range, which, &mut hits);
    report(&hits[..n], list)
}

// What is found among the blocks of a run, reported to the list.
#[tactic(auto, unfolding(crate::specs::Finding::found_in))]
fn list_found(
    image: &[u8],
    starts: &PerRecord,
    blocks: Run,
    what: Finding,
    range: AddressRange,
    list: &mut [u32],
) -> Result<u32, NoRoom>
    requires { Searchable image.now starts.now blocks range }
    ensures { Reported (found_in what (blocks_in image.now blocks.low) (numbers range)) list.old list.new result }
{
    match what {
        Finding::Lookup => list_around(image, starts, blocks, range, Around::Lookup, list),
        Finding::Relation(Relation::Up) => {
            list_around(image, starts, blocks, range, Around::Up, list)
        }
        Finding::Relation(Relation::Down) => {
            list_inside(image, starts, blocks, range, Inside::Down, list)
        }
        Finding::Relation(Relation::Top) => {
            list_around(image, starts, blocks, range, Around::Top, list)
        }
        Finding::Relation(Relation::Bottom) => {
            list_inside(image, starts, blocks, range, Inside::Bottom, list)
        }
    }
}

// What is found of a range of a family, reported to the list.
pub fn find(
    image: SoundImage,
    what: Finding,
    family: u8,
    range: AddressRange,
    list: &mut [u32],
) -> Result<u32, NoRoom>
    requires { (is_block family ≡ true) × (number range.first ≤ number range.last) }
    ensures { Reported (found_in what (blocks_in image.entry.bytes.now family) (numbers range)) list.old list.new result }
{
    let blocks = image.run_of(family, family);
    list_found(image.bytes, image.starts, blocks, what, range, list)
}
