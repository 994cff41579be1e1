// The text of an address, written to the front of a lent buffer: IPv4 as four decimals, IPv6 in the form of RFC 5952.
#![tactic(auto)]

ghost use Rattle.std.specs.Prelude.{◌≡◌, ◌++◌, ◌+◌, ◌≤◌, length};
ghost use Rattle.octets.specs.Ascii.{ascii};
ghost use Rattle.octets.specs.Positions.{Wide};
ghost use Rattle.numeral.specs.Digits.{spelled};
ghost use Rattle.output.specs.Writing.{Written};
ghost use Rattle.ip_groups.specs.Runs.{LongestRun};
ghost use Rattle.ip_text.specs.Text.{colons, dotted, shortened, ipv6_text, text_of};
ghost use Rattle.digits.specs.Base.{radix};

use ip_groups::{groups_of, octets_of, zero_runs};
use output::put_bytes;
use separated::{Base, put_spelled};

// Given bytes, and numbers in the rest of the text after them.
fn put_after(front: &[u8], sep: u8, base: Base, numbers: &[u32], text: &mut [u8]) -> usize
    requires { length front.now + length (spelled sep (radix base) numbers.now) ≤ length text.old }
    ensures { Written (front.now ++ spelled sep (radix base) numbers.now) text.old text.new result }
{
    let at = put_bytes(front, text);
    at + put_spelled(sep, base, numbers, &mut text[at..])
}

// Groups, "::" and groups.
fn put_elided(left: &[u32], right: &[u32], text: &mut [u8]) -> usize
    requires { length (colons left.now ++ (ascii "::" ++ colons right.now)) ≤ length text.old }
    ensures { Written (colons left.now ++ (ascii "::" ++ colons right.now)) text.old text.new result }
{
    let at = put_spelled(b':', Base::Hex, left, text);
    at + put_after(b"::", b':', Base::Hex, right, &mut text[at..])
}

// The longest run of at least two zero groups shortened.
fn put_shortened(groups: &[u32], longest: usize, at: usize, text: &mut [u8]) -> usize
    requires { LongestRun groups.now longest at × (length (shortened groups.now) ≤ length text.old) }
    ensures { Written (shortened groups.now) text.old text.new result }
{
    if longest < 2 {
        return put_spelled(b':', Base::Hex, groups, text);
    }
    let rest = at + longest;
    put_elided(&groups[..at], &groups[rest..], text)
}

// An address of sixteen bytes.
fn put_ipv6(address: &[u8], text: &mut [u8]) -> usize
    requires { (length address.now ≡ 16) × (length (ipv6_text address.now) ≤ length text.old) }
    ensures { Written (ipv6_text address.now) text.old text.new result }
{
    let groups = groups_of(address);
    let runs = zero_runs(&groups);
    if runs.first == 5 {
        if groups[5] == 65535 {
            let octets = octets_of(&address[12..]);
            return put_after(b"::ffff:", b'.', Base::Decimal, &octets, text);
        }
    }
    put_shortened(&groups, runs.longest, runs.at, text)
}

// An address of four bytes.
fn put_ipv4(address: &[u8], text: &mut [u8]) -> usize
    requires { (length address.now ≡ 4) × (length (dotted address.now) ≤ length text.old) }
    ensures { Written (dotted address.now) text.old text.new result }
{
    let octets = octets_of(address);
    put_spelled(b'.', Base::Decimal, &octets, text)
}

// The text of an address of four bytes or sixteen. Gives the number of bytes written.
pub fn put_text(address: &[u8], text: &mut [u8]) -> usize
    requires { Wide (length address.now) × (length (text_of address.now) ≤ length text.old) }
    ensures { Written (text_of address.now) text.old text.new result }
{
    if address.len() == 4 {
        return put_ipv4(address, text);
    }
    put_ipv6(address, text)
}
