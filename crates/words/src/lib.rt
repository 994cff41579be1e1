// Bytes read together, as numbers of four, eight and sixteen bytes, and compared.
#![tactic(auto)]

ghost use Rattle.std.specs.Prelude.{◌≡◌, ◌+◌, ◌^◌, ◌≤◌, ◌<◌, leb, length, drop};
ghost use Rattle.octets.specs.Number.{at_most};
ghost use Rattle.octets.specs.Order.{compared};
ghost use Rattle.octets.specs.Positions.{Wide, number_in};

use std::cmp::Ordering;

// A byte as a number.
pub fn wide(b: u8) -> u64
    ensures { (result ≡ b) × (result < 256) }
{
    b as u64
}

// Four bytes as a number, high byte first.
pub fn word4(s: &[u8], at: usize) -> u32
    requires { at + 4 ≤ length s.now }
    ensures { result ≡ number_in s.now at 4 }
{
    u32::from_be_bytes([s[at], s[at + 1], s[at + 2], s[at + 3]])
}

// Eight bytes. The compiler makes one load of them.
pub fn word8(s: &[u8], at: usize) -> u64
    requires { at + 8 ≤ length s.now }
    ensures { result ≡ number_in s.now at 8 }
{
    u64::from_be_bytes([
        s[at],
        s[at + 1],
        s[at + 2],
        s[at + 3],
        s[at + 4],
        s[at + 5],
        s[at + 6],
        s[at + 7],
    ])
}

// Sixteen bytes.
pub fn word16(s: &[u8], at: usize) -> u128
    requires { at + 16 ≤ length s.now }
    ensures { result ≡ number_in s.now at 16 }
{
    let high = word8(s, at);
    let low = word8(s, at + 8);
    u128::from(high) << 64 | u128::from(low)
}

// The address or number of the given width, 4 or 16 bytes, at a position of a slice.
pub fn number_at(s: &[u8], at: usize, width: usize) -> u128
    requires { Wide width × (at + width ≤ length s.now) }
    ensures { result ≡ number_in s.now at width }
{
    if width == 4 {
        return u128::from(word4(s, at));
    }
    word16(s, at)
}

// The order of two of sixteen bytes: only where the high words are the same are the low ones compared, which takes less.
fn order16(a: &[u8], x: usize, b: &[u8], y: usize) -> bool
    requires { (x + 16 ≤ length a.now) × (y + 16 ≤ length b.now) }
    ensures { result ≡ leb (number_in a.now x 16) (number_in b.now y 16) }
{
    let high = word8(a, x);
    let other = word8(b, y);
    if high != other {
        return high < other;
    }
    word8(a, x + 8) <= word8(b, y + 8)
}

// The order of two of the given width, each at a position of a slice. Four bytes are compared as numbers of 32 bits, which takes less.
pub fn numbers_at_most(a: &[u8], x: usize, b: &[u8], y: usize, width: usize) -> bool
    requires { Wide width × (x + width ≤ length a.now) × (y + width ≤ length b.now) }
    ensures { result ≡ leb (number_in a.now x width) (number_in b.now y width) }
{
    if width == 4 {
        return word4(a, x) <= word4(b, y);
    }
    order16(a, x, b, y)
}

// How what is left of two texts sorts, from a position on. The slices' own order is long code for a few bytes.
fn compare_rest(a: &[u8], b: &[u8], from: usize) -> Ordering
    requires { (from ≤ length a.now) × (from ≤ length b.now) }
    ensures { result ≡ compared (drop from a.now) (drop from b.now) }
{
    let n = a.len().min(b.len());
    for i in from..n {
        if a[i] != b[i] {
            return a[i].cmp(&b[i]);
        }
    }
    a.len().cmp(&b.len())
}

// How two texts sort: by bytes, a proper prefix first. Eight bytes at a time, since names that stand together begin alike.
#[inline(always)]
pub fn compare(a: &[u8], b: &[u8]) -> Ordering
    ensures { result ≡ compared a.now b.now }
{
    let n = a.len().min(b.len());
    let mut i = 0;
    while 8 <= n - i {
        let x = word8(a, i);
        let y = word8(b, i);
        if x != y {
            return x.cmp(&y);
        }
        i += 8;
    }
    compare_rest(a, b, i)
}

// Whether the first of two texts does not sort after the second.
pub fn bytes_at_most(a: &[u8], b: &[u8]) -> bool
    ensures { result ≡ at_most a.now b.now }
{
    compare(a, b).is_le()
}
