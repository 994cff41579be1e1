// Whether a block's range, where it stands in an image, covers a range or lies inside it.
#![tactic(auto)]

ghost use Rattle.std.specs.Prelude.{◌≡◌, ◌+◌, ◌*◌, ◌≤◌, ◌<◌, length};
ghost use Rattle.octets.specs.Positions.{number_in};
ghost use Rattle.address.specs.Address.{number, numbers};
ghost use Rattle.address.specs.Positions.{range_in};
ghost use Rattle.address.specs.Ranges.{covers as covers_of, strictly_inside};
ghost use Rattle.containment.specs.Tests.{Comparable, surrounds_by, free_after, keeps_from};

use address::{AddressRange, at_least_at, at_most_at};

// Whether the block's range at a position covers the range.
fn covers(image: &[u8], at: usize, width: usize, range: AddressRange) -> bool
    requires { Comparable image.now at width }
    ensures { result ≡ covers_of (range_in image.now at width) (numbers range) }
{
    if !at_least_at(range.first, image, at, width) {
        return false;
    }
    at_most_at(range.last, image, at + width, width)
}

// Whether it lies inside the range.
fn inside(image: &[u8], at: usize, width: usize, range: AddressRange) -> bool
    requires { Comparable image.now at width }
    ensures { result ≡ covers_of (numbers range) (range_in image.now at width) }
{
    if !at_most_at(range.first, image, at, width) {
        return false;
    }
    at_least_at(range.last, image, at + width, width)
}

// Whether it lies inside and differs.
pub fn strictly_inside(image: &[u8], at: usize, width: usize, range: AddressRange) -> bool
    requires { Comparable image.now at width }
    ensures { result ≡ strictly_inside (range_in image.now at width) (numbers range) }
{
    if !inside(image, at, width, range) {
        return false;
    }
    !covers(image, at, width, range)
}

// Whether it is around the range, strictly or not. It does not begin after the range's first.
pub fn surrounds(image: &[u8], at: usize, width: usize, range: AddressRange, strict: bool) -> bool
    requires { Comparable image.now at width × (number_in image.now at width ≤ number range.first) }
    ensures { result ≡ surrounds_by strict (range_in image.now at width) (numbers range) }
{
    if !at_most_at(range.last, image, at + width, width) {
        return false;
    }
    if strict {
        return !inside(image, at, width, range);
    }
    true
}

// Whether it is strictly inside the range and begins after the last of the n blocks kept before it, whose range is at kept.
pub fn keeps(
    image: &[u8],
    at: usize,
    width: usize,
    range: AddressRange,
    n: usize,
    kept: usize,
) -> bool
    requires { Comparable image.now at width × (0 < n → kept + 2 * width ≤ length image.now) }
    ensures { result ≡ keeps_from (free_after n (number_in image.now (kept + width) width))
        (range_in image.now at width) (numbers range) }
{
    if !strictly_inside(image, at, width, range) {
        return false;
    }
    if n == 0 {
        return true;
    }
    !words::numbers_at_most(image, at, image, kept + width, width)
}
