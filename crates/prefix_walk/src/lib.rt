// The prefixes of a range of addresses, written one after another to the front of a lent buffer.
#![tactic(auto)]

ghost use Rattle.std.specs.Prelude.{◌≤◌, length};
ghost use Rattle.cidr.specs.First.{Capped};
ghost use Rattle.cidr.specs.Prefixes.{from-to};
ghost use Rattle.next_prefix.specs.Walked.{walked};
ghost use Rattle.prefix_bytes.specs.Entry.{entries_of};
ghost use Rattle.prefix_walk.specs.Entries.{Ordered, Listed, Climbed, fallen, Falling};

use next_prefix::{cap, last_of, size, zeros_end};
use prefix_bytes::put_entry;

// Where the climbing ended: the next address, where its entry goes, and how many entries are written.
#[derive(Clone, Copy)]
struct Stop {
    start: u128,
    at: usize,
    n: u32,
}

// Writes the entries of the prefixes that end before the range does if the trailing zeros decide. Gives where the others start.
// Each starts after the end of the one before it, so that no range counts the turns.
fn climb(first: u128, last: u128, width: usize, out: &mut [u8]) -> Stop
    requires { Ordered width first last × (length (entries_of width (walked first last)) ≤ length out.old) }
    ensures { Climbed width first last out.old out.new result }
{
    let mut start = first;
    let mut at: usize = 0;
    let mut n: u32 = 0;
    loop {
        let end = zeros_end(start);
        if last <= end {
            return Stop { start, at, n };
        }
        put_entry(start, start.trailing_zeros(), width, &mut out[at..]);
        start = end + 1;
        at += width + 1;
        n += 1;
    }
}

// Writes the entries of so many addresses from first on, fewer than its zeros allow: a prefix for each bit of their number, from the highest
// on. Gives how many there are.
fn fall(first: u128, number: u128, width: usize, out: &mut [u8]) -> u32
    requires { Falling width first number × (length (entries_of width (fallen first number)) ≤ length out.old) }
    ensures { Listed width (fallen first number) out.old out.new result }
{
    let mut start = first;
    let mut left = number;
    let mut at: usize = 0;
    let mut n: u32 = 0;
    while left != 0 {
        let free = left.ilog2();
        let addresses = size(free);
        put_entry(start, free, width, &mut out[at..]);
        start += addresses;
        left -= addresses;
        at += width + 1;
        n += 1;
    }
    n
}

// Writes the entries of the others, for which what remains decides. Gives how many there are.
fn descend(first: u128, last: u128, width: usize, out: &mut [u8]) -> u32
    requires { Ordered width first last × Capped (from-to first last) × (length (entries_of width (walked first last)) ≤ length out.old) }
    ensures { Listed width (walked first last) out.old out.new result }
{
    let free = cap(last - first);
    put_entry(first, free, width, out);
    let end = last_of(first, free);
    if last <= end {
        return 1;
    }
    let number = last - end;
    1 + fall(end + 1, number, width, &mut out[width + 1..])
}

// Writes the entries to the front of the buffer, which has room for them. Gives how many there are.
pub fn write(first: u128, last: u128, width: usize, out: &mut [u8]) -> u32
    requires { Ordered width first last × (length (entries_of width (walked first last)) ≤ length out.old) }
    ensures { Listed width (walked first last) out.old out.new result }
{
    let stop = climb(first, last, width, out);
    let at = stop.at;
    stop.n + descend(stop.start, last, width, &mut out[at..])
}
