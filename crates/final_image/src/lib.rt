// The final image of a fold: judged by its records, and written to a lent buffer.
#![tactic(auto)]

ghost use Rattle.std.specs.Prelude.{◌≡◌, true, ◌≤◌, length};
ghost use Rattle.registry.specs.Limits.{most_image};
ghost use Rattle.image.specs.Image.{starts_right};
ghost use Rattle.changes.specs.Limits.{most_changes};
ghost use Rattle.merged.specs.Listed.{image_in, MergedIn};
ghost use Rattle.final_image.specs.Call.{Finished};

use merged::Records;
use output::put_bytes;
use overlaps::final_verdict;
use registry::Flaw;
use stretches::put_records;

// Why a fold writes nothing.
#[derive(Clone, Copy, Debug, PartialEq, Eq)]
pub enum FoldError {
    // The image is defective.
    Image(Flaw),
    // The buffer has too little room: the bytes that are needed.
    NoRoom(u32),
    // The change at this offset cannot be applied.
    Change(u32),
    // The final image would be defective.
    Final(Flaw),
}

// The final image written, and how many bytes it has: its verdict, its room, and then its bytes.
pub fn finish(records: &Records, out: &mut [u8]) -> Result<u32, FoldError>
    requires { MergedIn records.now × (starts_right records.now.image.now ≡ true)
        × (length records.now.image.now ≤ most_image) × (length records.now.changes.now ≤ most_changes) }
    ensures { Finished (image_in records.now) out.old out.new result }
{
    let size = 4 + records.size();
    let verdict = final_verdict(records, size);
    if let Err(flaw) = verdict {
        return Err(FoldError::Final(flaw));
    }
    if out.len() < size {
        return Err(FoldError::NoRoom(size as u32));
    }
    put_bytes(&records.image[..4], out);
    let rest = put_records(records, &mut out[4..]);
    Ok((4 + rest) as u32)
}
