// The next prefix of a range (S2.6): the zero bits at the low end of the first address that is left decide, capped by what remains.
#![tactic(auto)]

ghost use Rattle.std.specs.Prelude.{◌≡◌, suc, ◌+◌, ◌^◌, ◌≤◌, ◌<◌, length};
ghost use Rattle.std.specs.Int.Count.{count_trailing_zeros};
ghost use Rattle.cidr.specs.First.{Largest, Top};
ghost use Rattle.cidr.specs.Prefixes.{from-to};
ghost use Rattle.next_prefix.specs.Walked.{walked};

// How many addresses a prefix with so many free bits has.
pub fn size(free: u32) -> u128
    requires { free < 128 }
    ensures { result ≡ 2 ^ free }
{
    1 << free
}

// The bits that may be free in so many addresses and one more.
pub fn cap(left: u128) -> u32
    ensures { (result ≤ 128) × Top (suc left) result }
{
    match left.checked_add(1) {
        Some(number) => number.ilog2(),
        None => 128,
    }
}

// The last address of the prefix that start's trailing zeros allow: they are set. It takes no shift, which is slow at 128 bits.
pub fn zeros_end(start: u128) -> u128
    ensures { suc result ≡ start + 2 ^ count_trailing_zeros 128 start }
{
    start | start.wrapping_sub(1)
}

// The last address of the prefix at start.
pub fn last_of(start: u128, free: u32) -> u128
    requires { (free ≤ 128) × (start + 2 ^ free ≤ 2 ^ 128) }
    ensures { suc result ≡ start + 2 ^ free }
{
    match 1u128.checked_shl(free) {
        Some(size) => start + (size - 1),
        None => u128::MAX,
    }
}

// The next prefix: how many of its bits are free, and its last address.
#[derive(Clone, Copy)]
struct Step {
    free: u32,
    end: u128,
}

// The prefix at start: its trailing zeros decide, capped by what remains.
fn prefix_at(start: u128, last: u128) -> Step
    requires { start ≤ last }
    ensures { Largest (from-to start last) result.free × (suc result.end ≡ start + 2 ^ result.free) }
{
    let zeros = start.trailing_zeros();
    let whole = zeros_end(start);
    if whole <= last {
        return Step {
            free: zeros,
            end: whole,
        };
    }
    let most = cap(last - start);
    let end = last_of(start, most);
    Step { free: most, end }
}

// How many prefixes the range has. Each starts after the end of the one before it, so that no range counts the turns.
pub fn count(first: u128, last: u128) -> u32
    requires { first ≤ last }
    ensures { result ≡ length (walked first last) }
{
    let mut start = first;
    let mut n: u32 = 1;
    loop {
        let p = prefix_at(start, last);
        if last <= p.end {
            return n;
        }
        start = p.end + 1;
        n += 1;
    }
}
