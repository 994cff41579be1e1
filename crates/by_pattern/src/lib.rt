// Which records of a sound image match a pattern.
#![tactic(auto)]

ghost use Rattle.std.specs.Prelude.{◌≡◌, length};
ghost use Rattle.registry.specs.Limits.{most_records};
ghost use Rattle.records.specs.Positions.{Inside};
ghost use Rattle.image.specs.Entries.{contents_span};
ghost use Rattle.image.specs.Index.{Selected};
ghost use Rattle.pattern.specs.Pattern.{matches_form};
ghost use Rattle.output.specs.Listing.{Reported, Collected};
ghost use Rattle.search.specs.Picks.{text_at, picked_in, matching_in};

use image::Run;
use output::{NoRoom, report};
use pattern::Form;
use registry::{MOST_RECORDS, Part, PerRecord, Text};
use search::{text_at, which_of};

// Whether the handle or the name of the record at a position matches.
fn picked(image: &[u8], at: usize, which: Part, fold: bool, form: Form, pattern: &[u8]) -> bool
    requires { Inside (length image.now) (contents_span which image.now at) }
    ensures { result ≡ matches_form fold form pattern.now (text_at image.now at which) }
{
    pattern::form_matches(fold, Ok(form), pattern, text_at(image, at, which))
}

// The numbers of the records of the run that are picked, by one pass.
fn collect(
    image: &[u8],
    starts: &PerRecord,
    run: Run,
    which: Part,
    fold: bool,
    form: Form,
    pattern: &[u8],
    hits: &mut PerRecord,
) -> usize
    requires { Selected image.now starts.now run × (length hits.old ≡ most_records) }
    ensures { Collected hits.new (picked_in image.now run which fold form pattern.now) result }
{
    let mut n: usize = 0;
    for i in run.from..run.until {
        let at = starts[i as usize] as usize;
        if picked(image, at, which, fold, form, pattern) {
            hits[n] = i;
            n += 1;
        }
    }
    n
}

// The records that are picked, reported to the list. With two calls of it, one for each part, the compiler leaves it a function, so that
// its array takes no stack in other calls.
fn list_picked(
    image: &[u8],
    starts: &PerRecord,
    run: Run,
    which: Part,
    fold: bool,
    form: Form,
    pattern: &[u8],
    list: &mut [u32],
) -> Result<u32, NoRoom>
    requires { Selected image.now starts.now run }
    ensures { Reported (picked_in image.now run which fold form pattern.now) list.old list.new result }
{
    let mut hits = [0u32; MOST_RECORDS];
    let n = collect(image, starts, run, which, fold, form, pattern, &mut hits);
    report(&hits[..n], list)
}

// The records of the run whose handle or name matches the pattern, reported to the list.
pub fn matching(
    image: &[u8],
    starts: &PerRecord,
    run: Run,
    text: Text,
    form: Form,
    pattern: &[u8],
    list: &mut [u32],
) -> Result<u32, NoRoom>
    requires { Selected image.now starts.now run }
    ensures { Reported (matching_in image.now run text form pattern.now) list.old list.new result }
{
    let fold = pattern::folds_case(text);
    let which = which_of(text);
    match which {
        Part::Handle => list_picked(image, starts, run, Part::Handle, fold, form, pattern, list),
        _ => list_picked(image, starts, run, which, fold, form, pattern, list),
    }
}
