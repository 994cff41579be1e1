// Record numbers reported to a lent list, and bytes written to a lent buffer.
#![tactic(auto)]

ghost use Rattle.std.specs.Prelude.{◌≤◌, length};
ghost use Rattle.std.specs.Option.{option_to_list};
ghost use Rattle.registry.specs.Limits.{most_records};
ghost use Rattle.output.specs.Listing.{Reported};
ghost use Rattle.output.specs.Writing.{Written};

// Why no record numbers were written: the list has fewer places than are needed.
#[derive(Clone, Copy, Debug, PartialEq, Eq)]
pub struct NoRoom {
    pub needed: u32,
}

// Writes the hits to the first places of the list, and gives how many there are. Where the list has fewer places, nothing is written.
pub fn report(hits: &[u32], list: &mut [u32]) -> Result<u32, NoRoom>
    requires { length hits.now ≤ most_records }
    ensures { Reported hits.now list.old list.new result }
{
    let count = hits.len();
    if list.len() < count {
        return Err(NoRoom {
            needed: count as u32,
        });
    }
    list[..count].copy_from_slice(hits);
    Ok(count as u32)
}

// The same of one record, or of none.
pub fn report_found(found: Option<u32>, list: &mut [u32]) -> Result<u32, NoRoom>
    ensures { Reported (option_to_list found) list.old list.new result }
{
    match found {
        Some(number) => report(&[number], list),
        None => Ok(0),
    }
}

// The bytes of a slice, to the front of a buffer. Gives how many there are, as every writer does.
// Byte by byte: of two slices that a caller lends, the compiler makes `copy_from_slice` a call of memmove, and the archive for C is to need
// memcpy and memset alone.
pub fn put_bytes(s: &[u8], out: &mut [u8]) -> usize
    requires { length s.now ≤ length out.old }
    ensures { Written s.now out.old out.new result }
{
    for i in 0..s.len() {
        out[i] = s[i];
    }
    s.len()
}

// Why a call wrote nothing to a lent buffer; one that wrote tells how much.
#[derive(Clone, Copy, Debug, PartialEq, Eq)]
pub enum WriteError {
    // What it is given is not what it can write.
    Malformed,
    // The buffer has less room than so much needs.
    NoRoom(u32),
}
