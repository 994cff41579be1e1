// The range of a prefix, at every width up to sixteen bytes.
#![tactic(auto)]

ghost use Rattle.std.specs.Prelude.{◌≡◌, suc, ◌^◌, ◌≤◌, option_map};
ghost use Rattle.address.specs.Address.{number, numbers};
ghost use Rattle.prefix.specs.Prefix.{prefix_range};

use address::{Address, AddressRange};

// The number whose lowest n bits are ones.
fn low_ones(n: u32) -> u128
    requires { n ≤ 128 }
    ensures { suc result ≡ 2 ^ n }
{
    match 1u128.checked_shl(n) {
        Some(size) => size - 1,
        None => u128::MAX,
    }
}

// The addresses, of so many bits, that begin with the first l bits of first; refused where one of its bits after l is not zero.
pub fn prefix_range(first: Address, bits: u32, l: u32) -> Option<AddressRange>
    requires { (l ≤ bits) × (bits ≤ 128) }
    ensures { option_map numbers result ≡ prefix_range bits (number first) l }
{
    let number = first.number();
    let low = low_ones(bits - l);
    if number & low != 0 {
        return None;
    }
    let last = Address {
        bytes: (number | low).to_be_bytes(),
    };
    Some(AddressRange { first, last })
}
