// "::" in the text of an IPv6 address: where it stands, and zeros put between its sides.
#![tactic(auto)]

ghost use Rattle.std.specs.Prelude.{◌≡◌, ◌+◌, ◌≤◌, ◌<◌, length, Some, SomeIff, IfSome};
ghost use Rattle.elision.specs.Elision.{elided, elision};

// Where the first "::" stands.
pub fn find_elision(s: &[u8]) -> Option<usize>
    ensures first { SomeIff result (elision s.now < length s.now) (elision s.now) }
    ensures ends { IfSome result (λ at. at + 2 ≤ length s.now) }
{
    for i in 0..s.len() {
        if s[i..].starts_with(b"::") {
            return Some(i);
        }
    }
    None
}

// Both sides of "::", which stands for one or more groups of zeros.
pub fn join_sides(left: &[u8], right: &[u8]) -> Option<[u8; 16]>
    ensures { result ≡ elided (Some left.now) (Some right.now) }
{
    if left.len() + right.len() > 14 {
        return None;
    }
    let mut bytes = [0; 16];
    bytes[..left.len()].copy_from_slice(left);
    bytes[16 - right.len()..].copy_from_slice(right);
    Some(bytes)
}
