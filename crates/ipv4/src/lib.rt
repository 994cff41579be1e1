// The text of an IPv4 address.
#![tactic(auto)]

ghost use Rattle.std.specs.Prelude.{◌≡◌};
ghost use Rattle.ipv4.specs.Ipv4.{ipv4};

// Four octets separated by dots.
pub fn read_ipv4(s: &[u8]) -> Option<[u8; 4]>
    ensures { result ≡ ipv4 s.now }
{
    let mut bytes = [0; 4];
    let mut rest = s;
    for i in 0..4 {
        let end = pieces::first_piece(rest, b'.');
        bytes[i] = numeral::read_decimal(&rest[..end], 255)? as u8;
        if end == rest.len() {
            return (i == 3).then_some(bytes);
        }
        rest = &rest[end + 1..];
    }
    None
}
