// Which record of a sound image has a name or a handle.
#![tactic(auto)]

ghost use Rattle.std.specs.Prelude.{◌≡◌, ◌+◌, ◌<◌, length};
ghost use Rattle.octets.specs.Order.{compared};
ghost use Rattle.records.specs.Positions.{Inside};
ghost use Rattle.image.specs.Entries.{contents_span};
ghost use Rattle.image.specs.Index.{Selected};
ghost use Rattle.output.specs.Listing.{Reported};
ghost use Rattle.search.specs.Picks.{text_at, called_in};
ghost use Rattle.by_name.specs.Seeking.{SortedBy, SoughtIn};

use halves::middle;
use image::Run;
use output::{NoRoom, report_found};
use registry::{Part, PerRecord, Text};
use search::{text_at, which_of};
use std::cmp::Ordering;

// How the handle or the name of the record at a position sorts beside the text that is wanted. It counts itself.
fn compare_at(image: &[u8], at: usize, which: Part, wanted: &[u8], steps: &mut u32) -> Ordering
    requires { Inside (length image.now) (contents_span which image.now at) × (steps.old < 13) }
    ensures order { result ≡ compared (text_at image.now at which) wanted.now }
    ensures counted { steps.new ≡ steps.old + 1 }
{
    *steps += 1;
    words::compare(text_at(image, at, which), wanted)
}

// What a search by halves found, and how many comparisons it took.
#[derive(Clone, Copy)]
struct Sought {
    found: Option<u32>,
    steps: u32,
}

// The record of the run whose handle or name is the text, by halves, since the records of the run are sorted by it.
fn seek(image: &[u8], starts: &PerRecord, run: Run, text: Text, wanted: &[u8]) -> Sought
    requires { Selected image.now starts.now run × SortedBy run.low run.high text }
    ensures { SoughtIn image.now run text wanted.now result }
{
    let which = which_of(text);
    let mut low = run.from;
    let mut high = run.until;
    let mut steps: u32 = 0;
    while low < high {
        let i = middle(low, high);
        let at = starts[i as usize] as usize;
        match compare_at(image, at, which, wanted, &mut steps) {
            Ordering::Less => low = i + 1,
            Ordering::Equal => {
                return Sought {
                    found: Some(i),
                    steps,
                };
            }
            Ordering::Greater => high = i,
        }
    }
    Sought { found: None, steps }
}

// The record of the run whose handle or name is the text, reported to the list.
pub fn called(
    image: &[u8],
    starts: &PerRecord,
    run: Run,
    text: Text,
    wanted: &[u8],
    list: &mut [u32],
) -> Result<u32, NoRoom>
    requires { Selected image.now starts.now run × SortedBy run.low run.high text }
    ensures { Reported (called_in image.now run text wanted.now) list.old list.new result }
{
    let found = seek(image, starts, run, text, wanted).found;
    report_found(found, list)
}
