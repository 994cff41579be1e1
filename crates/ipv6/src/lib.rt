// The text of an IPv6 address.
#![tactic(auto)]

ghost use Rattle.std.specs.Prelude.{◌≡◌, [], ◌++◌, ◌+◌, ◌<◌, ◌≤◌, length, take, OnSome, IfNone};
ghost use Rattle.octets.specs.Ascii.{code};
ghost use Rattle.octets.specs.Split.{split};
ghost use Rattle.ipv4.specs.Ipv4.{prefixed, exactly};
ghost use Rattle.ipv6.specs.Ipv6.{last_group, groups, side, ipv6};
ghost use Rattle.ipv6.specs.Read.{up_to};

use ipv4::read_ipv4;
use numeral::read_h16;
use std::marker::Model;

// The bytes of the groups read, at most sixteen.
#[derive(Drop)]
struct Groups {
    bytes: [u8; 16],
    len: usize,
}

impl Model for Groups {
    ghost use Rattle.std.specs.Prelude.{ℕ, ◌≤◌, List, take};

    ghost Value = { List ℕ };

    ghost view = { λ g. take g.len g.bytes };

    ghost invariant = { λ g. g.len ≤ 16 };
}

impl Groups {
    fn new() -> Groups
        ensures { result ≡ [] }
    {
        Groups {
            bytes: [0; 16],
            len: 0,
        }
    }

    // Adds bytes; refused where there are then more than sixteen.
    fn add(&mut self, more: &[u8]) -> Option<()>
        ensures fits { length self.new ≤ 16 }
        ensures added { OnSome result (self.new ≡ self.old ++ more.now) }
        ensures refused { IfNone result (16 < length self.old + length more.now) }
    {
        if more.len() > 16 - self.len {
            return None;
        }
        let end = self.len + more.len();
        self.bytes[self.len..end].copy_from_slice(more);
        self.len = end;
        Some(())
    }

    fn as_slice(&self) -> &[u8]
        ensures { result.now ≡ self.now }
    {
        &self.bytes[..self.len]
    }

    // The address, if it is whole.
    fn address(&self) -> Option<[u8; 16]>
        ensures { result ≡ exactly 16 (Some self.now) }
    {
        (self.len == 16).then_some(self.bytes)
    }
}

// The last group after those read; where tail says so, it may be an IPv4 address.
fn read_last(mut read: Groups, t: &[u8], tail: bool) -> Option<Groups>
    ensures { result ≡ up_to 16 (prefixed read (last_group tail t.now)) }
{
    if let Some(v) = read_h16(t) {
        read.add(&(v as u16).to_be_bytes())?;
        return Some(read);
    }
    if tail {
        read.add(&read_ipv4(t)?)?;
        return Some(read);
    }
    None
}

// One or more groups separated by colons, of which the last may be an IPv4 address where tail says so.
fn read_groups(s: &[u8], tail: bool) -> Option<Groups>
    ensures { result ≡ up_to 16 (groups tail (split (code ":") s.now)) }
{
    let mut read = Groups::new();
    let mut rest = s;
    let mut end = pieces::first_piece(rest, b':');
    // By `while`: the groups differ in length, and the last piece is read otherwise.
    while end < rest.len() {
        let v = read_h16(&rest[..end])?;
        read.add(&(v as u16).to_be_bytes())?;
        rest = &rest[end + 1..];
        end = pieces::first_piece(rest, b':');
    }
    read_last(read, rest, tail)
}

// A side of "::".
fn read_side(s: &[u8], tail: bool) -> Option<Groups>
    ensures { result ≡ up_to 16 (side tail s.now) }
{
    if s.is_empty() {
        return Some(Groups::new());
    }
    read_groups(s, tail)
}

// An IPv6address of RFC 3986.
pub fn read_ipv6(s: &[u8]) -> Option<[u8; 16]>
    ensures { result ≡ ipv6 s.now }
{
    if let Some(at) = elision::find_elision(s) {
        let left = read_side(&s[..at], false)?;
        let right = read_side(&s[at + 2..], true)?;
        return elision::join_sides(left.as_slice(), right.as_slice());
    }
    read_groups(s, true)?.address()
}
