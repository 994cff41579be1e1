// Ranges of blocks where they stand: how two are sorted, and one among those of the open blocks.
#![tactic(auto)]

ghost use Rattle.std.specs.Prelude.{◌≡◌, ◌+◌, ◌*◌, ◌≤◌, length};
ghost use Rattle.octets.specs.Positions.{Wide};
ghost use Rattle.address.specs.Ranges.{sorts_after};
ghost use Rattle.address.specs.Positions.{range_in};
ghost use Rattle.nesting.specs.Nest.{nest_of, open_last, NestRoom};

use words::numbers_at_most;

// Whether the range at q of b comes strictly after the one at p of a in the sorting.
pub fn range_after(a: &[u8], p: usize, b: &[u8], q: usize, width: usize) -> bool
    requires { Wide width × (p + 2 * width ≤ length a.now) × (q + 2 * width ≤ length b.now) }
    ensures { result ≡ sorts_after (range_in a.now p width) (range_in b.now q width) }
{
    if !numbers_at_most(b, q, a, p, width) {
        return true;
    }
    if !numbers_at_most(a, p, b, q, width) {
        return false;
    }
    !numbers_at_most(a, p + width, b, q + width, width)
}

// Under how many of the open blocks of its tag the range of the image at start lies; None where it overlaps one without lying inside it. They
// start at the first depth positions of stack in opens, the innermost last; each lies inside the one before it.
pub fn nest(
    image: &[u8],
    start: usize,
    width: usize,
    opens: &[u8],
    stack: &[u32],
    depth: usize,
) -> Option<usize>
    requires { NestRoom image.now start width opens.now stack.now depth }
    ensures { result ≡ nest_of (open_last opens.now width stack.now) (range_in image.now start width) depth }
{
    for d in (0..depth).rev() {
        let last = stack[d] as usize + width;
        if numbers_at_most(image, start, opens, last, width) {
            if numbers_at_most(image, start + width, opens, last, width) {
                return Some(d + 1);
            }
            return None;
        }
    }
    Some(0)
}
