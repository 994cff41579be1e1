// A range of addresses as prefixes (S2.6), written to a lent buffer.
#![tactic(auto)]

ghost use Rattle.std.specs.Prelude.{◌≡◌, ◌*◌, length};
ghost use Rattle.octets.specs.Positions.{Wide};
ghost use Rattle.next_prefix.specs.Walked.{walked};
ghost use Rattle.prefix_walk.specs.Entries.{Ordered};
ghost use Rattle.prefixes.specs.Call.{ip_range, ip_range_of, prefixed_of, buffer_after};
ghost use Rattle.prefixes.specs.Fitting.{fit_of};

use next_prefix::count;
use output::WriteError;
use prefix_walk::write;
use words::number_at;

// Whether so many bytes are enough for the entries. They are counted only where there are fewer than any range of the family needs.
fn check_room(first: u128, last: u128, width: usize, bytes: usize) -> Result<(), WriteError>
    requires { Ordered width first last }
    ensures { result ≡ fit_of width bytes (walked first last) }
{
    let size = width + 1;
    if (16 * width - 2) * size <= bytes {
        return Ok(());
    }
    let n = count(first, last);
    if n as usize * size <= bytes {
        return Ok(());
    }
    Err(WriteError::NoRoom(n))
}

// The prefixes of a range whose addresses have so many bytes.
fn listed(range: &[u8], width: usize, out: &mut [u8]) -> Result<u32, WriteError>
    requires { Wide width × (length range.now ≡ 2 * width) }
    ensures numbers { result ≡ prefixed_of (ip_range width range.now) (length out.old) }
    ensures out { out.new ≡ buffer_after (ip_range width range.now) out.old }
{
    let first = number_at(range, 0, width);
    let last = number_at(range, width, width);
    if last < first {
        return Err(WriteError::Malformed);
    }
    check_room(first, last, width, out.len())?;
    Ok(write(first, last, width, out))
}

// The prefixes of a range of addresses, first then last, of 4 or 16 bytes each: to the front of the buffer, each as its address and its length.
pub fn prefixes(range: &[u8], out: &mut [u8]) -> Result<u32, WriteError>
    ensures numbers { result ≡ prefixed_of (ip_range_of range.now) (length out.old) }
    ensures out { out.new ≡ buffer_after (ip_range_of range.now) out.old }
{
    match range.len() {
        8 => listed(range, 4, out),
        32 => listed(range, 16, out),
        _ => Err(WriteError::Malformed),
    }
}
