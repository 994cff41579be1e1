// The entry of a prefix in a list: its first address and its length, written to the front of a lent buffer.
#![tactic(auto)]

ghost use Rattle.std.specs.Prelude.{◌+◌, ◌*◌, ◌^◌, ◌≤◌, ◌<◌, length};
ghost use Rattle.octets.specs.Positions.{Wide};
ghost use Rattle.output.specs.Writing.{Written};
ghost use Rattle.cidr.specs.Prefixes.{prefix};
ghost use Rattle.prefix_bytes.specs.Entry.{big_endian, entry_of};
ghost use Rattle.prefix_bytes.specs.Fitting.{EntryFits};

// Eight bytes of a number, high byte first.
fn put8(v: u64, out: &mut [u8])
    requires { 8 ≤ length out.old }
    ensures { Written (big_endian 8 v) out.old out.new 8 }
{
    out[..8].copy_from_slice(&v.to_be_bytes());
}

// The address, in 4 or 16 bytes. Sixteen are two of eight, since the compiler makes one store of eight, but sixteen of sixteen.
fn put_address(a: u128, width: usize, out: &mut [u8])
    requires { Wide width × (width ≤ length out.old) × (a < 2 ^ (8 * width)) }
    ensures { Written (big_endian width a) out.old out.new width }
{
    if width == 4 {
        out[..4].copy_from_slice(&(a as u32).to_be_bytes());
        return;
    }
    put8((a >> 64) as u64, out);
    put8((a % (1 << 64)) as u64, &mut out[8..]);
}

// The entry of a prefix: its first address, and its length.
pub fn put_entry(first: u128, free: u32, width: usize, out: &mut [u8])
    requires { EntryFits width first free × (width + 1 ≤ length out.old) }
    ensures { Written (entry_of width (prefix first free)) out.old out.new (width + 1) }
{
    put_address(first, width, out);
    let bits = 8 * width as u32;
    out[width] = (bits - free) as u8;
}
