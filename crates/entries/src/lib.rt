// The records of a sound image by their tags and numbers: those with a tag, and the range, the handle or the name of one.
#![tactic(auto)]

ghost use Rattle.std.specs.Prelude.{◌≡◌, ◌+◌, ◌≤◌, ◌<◌, length};
ghost use Rattle.registry.specs.Limits.{most_image};
ghost use Rattle.registry.specs.Tags.{entity, head_length};
ghost use Rattle.image.specs.Image.{image_of};
ghost use Rattle.image.specs.Part.{excerpt_of, PartFrom};
ghost use Rattle.image.specs.Entries.{start_of, contents_span, span_of, PartSpan};
ghost use Rattle.image.specs.Index.{Indexed, FirstFrom, RunOf};
ghost use Rattle.entries.specs.Alike.{Indexed-prop};

use halves::middle;
use image::{Run, index};
use reader::read;
use records::{Span, handle_span, name_span, range_span};
use registry::{MOST_RECORDS, Part, PerRecord};

// A sound image, how many records it has, and where each starts.
#[derive(Clone, Copy)]
pub struct SoundImage<'a> {
    pub bytes: &'a [u8],
    pub starts: &'a PerRecord,
    pub count: u32,
    pub ghost indexed: { Indexed bytes.now count starts.now } by { Indexed-prop bytes.now count starts.now },
}

impl<'a> SoundImage<'a> {
    // Where the record with this number starts. Its head is in the image, which is not too large.
    pub fn start_of(self, number: u32) -> usize
        requires { number < self.count }
        ensures is { result ≡ start_of self.entry.bytes.now number }
        ensures inside { result + head_length ≤ length self.entry.bytes.now }
        ensures fits { length self.entry.bytes.now ≤ most_image }
    {
        self.starts[number as usize] as usize
    }

    // The number of the first record whose tag is not below this one; their number, if there is none. By halves, since the records are
    // sorted by tag. No `partition_point`: `middle` promises that at most half is left at each step, for this search as for the others.
    pub fn first_from(self, tag: u8) -> u32
        ensures { FirstFrom self.entry.bytes.now self.entry.count tag result }
    {
        let mut low = 0;
        let mut high = self.count;
        while low < high {
            let i = middle(low, high);
            if self.bytes[self.start_of(i)] < tag {
                low = i + 1;
            } else {
                high = i;
            }
        }
        low
    }

    // The records with a tag from low to high.
    pub fn run_of(self, low: u8, high: u8) -> Run
        requires { (low ≤ high) × (high ≤ entity) }
        ensures { (result.low ≡ low) × (result.high ≡ high) × RunOf self.entry.bytes.now self.entry.count result }
    {
        Run {
            low,
            high,
            from: self.first_from(low),
            until: self.first_from(high + 1),
        }
    }
}

// Where a part of the record at a position is; from 0 up to 0 if no field stands there.
pub fn contents_span(image: &[u8], at: usize, which: Part) -> Span
    ensures { result ≡ contents_span which image.now at }
{
    let Some(record) = read(image, at) else {
        return Span::default();
    };
    match which {
        Part::Range => range_span(image, record),
        Part::Handle => handle_span(image, record),
        Part::Name => name_span(image, record),
    }
}

// Where a part of a record is in the image; from 0 up to 0 if the image is defective or there is no such record.
pub fn part_span(image: &[u8], number: u32, which: Part) -> Span
    ensures { PartSpan image.now number which result }
{
    let mut starts = [0u32; MOST_RECORDS];
    let Ok(count) = index(image, &mut starts) else {
        return Span::default();
    };
    if count <= number {
        return Span::default();
    }
    contents_span(image, starts[number as usize] as usize, which)
}

// A part of a record as a part of the image; empty if the image is defective or there is no such record.
pub fn part(image: &[u8], number: u32, which: Part) -> &[u8]
    ensures { PartFrom image.entry (span_of image.now number which).start (excerpt_of (image_of image.now) number which) result }
{
    let span = part_span(image, number, which);
    &image[span.start..span.end]
}
