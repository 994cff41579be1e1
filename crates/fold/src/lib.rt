// A change file folded into an image: the final image is written to a lent buffer.
#![tactic(auto)]

ghost use Rattle.std.specs.Prelude.{◌≡◌, length};
ghost use Rattle.image.specs.Index.{Indexed};
ghost use Rattle.changes.specs.Fold.{fold_of};
ghost use Rattle.final_image.specs.Call.{folded_of, folded_in, out_after, Gives};

use changes::MOST_ENTRIES;
use final_image::{FoldError, finish};
use final_list::changed;
use image::index;
use merged::Records;
use registry::{MOST_RECORDS, PerRecord};

// The fold of a sound image, whose index is handed in.
fn fold_sound(
    image: &[u8],
    changes: &[u8],
    starts: &mut PerRecord,
    count: usize,
    out: &mut [u8],
) -> Result<u32, FoldError>
    requires { Indexed image.now count starts.old }
    ensures { Gives (fold_of image.now changes.now (length out.old)) out.old out.new result }
{
    // Made where they lie: `Records::new` would copy the 9,600 starts, and take stack for both.
    let mut records = Records {
        image,
        changes,
        starts: [0; MOST_ENTRIES],
        count: 0,
    };
    match changed(&mut records, starts, count) {
        Err(offset) => Err(FoldError::Change(offset as u32)),
        Ok(()) => finish(&records, out),
    }
}

// How many bytes the final image has, which is written; or why nothing is.
pub fn fold(image: &[u8], changes: &[u8], out: &mut [u8]) -> Result<u32, FoldError>
    ensures numbers { folded_in result ≡ folded_of (fold_of image.now changes.now (length out.old)) }
    ensures out { out.new ≡ out_after (fold_of image.now changes.now (length out.old)) out.old }
{
    let mut starts = [0u32; MOST_RECORDS];
    match index(image, &mut starts) {
        Err(flaw) => Err(FoldError::Image(flaw)),
        Ok(count) => fold_sound(image, changes, &mut starts, count as usize, out),
    }
}
