// The final list of a change file; a record of it by its number, for the program.
#![tactic(auto)]

ghost use Rattle.std.specs.Prelude.{◌≡◌, length};
ghost use Rattle.image.specs.Index.{Indexed};
ghost use Rattle.changes.specs.Limits.{most_entries};
ghost use Rattle.merged.specs.Listed.{SameFiles};
ghost use Rattle.final_list.specs.Final.{ChangedTo, final_record};

use applying::apply;
use changes::{MOST_CHANGES, MOST_ENTRIES};
use image::index;
use merged::{Records, note_starts};
use registry::{MOST_RECORDS, PerRecord};

// The changes applied to the records of a sound image, whose index is handed in; what the index of starts held before is of no account.
pub fn changed(records: &mut Records, starts: &mut PerRecord, count: usize) -> Result<(), usize>
    requires { Indexed records.old.image.now count starts.old }
    ensures changed { ChangedTo records.old.image.now records.old.changes.now records.new result }
    ensures full { length records.new.starts ≡ most_entries }
    ensures same { SameFiles records.old records.new }
{
    if MOST_CHANGES < records.changes.len() {
        return Err(0);
    }
    note_starts(starts, count, &mut records.starts);
    records.count = count;
    apply(records, starts)
}

// A record of the final list by its number: its bytes, none where there is no such record. The image is sound, and its index is handed in.
fn record_after<'a>(
    image: &'a [u8],
    changes: &'a [u8],
    starts: &mut PerRecord,
    count: usize,
    number: usize,
) -> &'a [u8]
    requires { Indexed image.now count starts.old }
    ensures { result.now ≡ final_record image.now changes.now number }
{
    // Made where they lie: `Records::new` would copy the 9,600 starts, and take stack for both.
    let mut records = Records {
        image,
        changes,
        starts: [0; MOST_ENTRIES],
        count: 0,
    };
    let Ok(()) = changed(&mut records, starts, count) else {
        return &[];
    };
    if records.count <= number {
        return &[];
    }
    records.record(number)
}

// The same of any image: none where it is defective, or a change is at fault.
pub fn final_record<'a>(image: &'a [u8], changes: &'a [u8], number: usize) -> &'a [u8]
    ensures { result.now ≡ final_record image.now changes.now number }
{
    let mut starts = [0u32; MOST_RECORDS];
    match index(image, &mut starts) {
        Err(_) => &[],
        Ok(count) => record_after(image, changes, &mut starts, count as usize, number),
    }
}
