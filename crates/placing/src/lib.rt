// A record placed after the one before it and among the open blocks (defects 6 and 7).
#![tactic(auto)]

ghost use Rattle.std.specs.Prelude.{◌≡◌, ltb};
ghost use Rattle.placing.specs.Step.{step_in, BlockRoom, block_step, Coming, step_on};

use nesting::{nest, range_after};
use record_order::named_after;
use records::Layout;
use registry::{AS_BLOCK, Defect, HEAD, IPV6_NETWORK};

// The block of the image whose range starts at start, after one of its tag, whose range is that of before at from. With `ok_or` in place of the
// match the check of an image takes more instructions.
fn block_after(
    before: &[u8],
    from: usize,
    image: &[u8],
    start: usize,
    width: usize,
    opens: &[u8],
    stack: &[u32],
    depth: usize,
) -> Result<usize, Defect>
    requires { BlockRoom before.now from image.now start width opens.now stack.now depth }
    ensures { result ≡ block_step before.now from image.now start width opens.now stack.now depth }
{
    if !range_after(before, from, image, start, width) {
        return Err(Defect::Unsorted);
    }
    match nest(image, start, width, opens, stack, depth) {
        Some(d) => Ok(d),
        None => Err(Defect::Crossing),
    }
}

// A record of one tag after one of another, family: the higher tag comes after the lower one.
fn other_tag(family: u8, tag: u8) -> Result<usize, Defect>
    ensures { result ≡ step_in (ltb family tag) (Some 0) }
{
    if family < tag {
        return Ok(0);
    }
    Err(Defect::Unsorted)
}

// The step of every check: under how many of the open blocks the record r of the image lies, which can be read, after the record p of before.
// The ranges of the open blocks start at the first depth positions of stack in opens. No record comes before it if p has the tag 0.
pub fn step(
    before: &[u8],
    p: Layout,
    image: &[u8],
    r: Layout,
    opens: &[u8],
    stack: &[u32],
    depth: usize,
) -> Result<usize, Defect>
    requires { Coming before.now p image.now r opens.now stack.now depth }
    ensures { result ≡ step_on before.now p image.now r opens.now stack.now depth }
{
    let family = p.tag;
    let tag = r.tag;
    if AS_BLOCK < tag {
        if family != tag {
            return other_tag(family, tag);
        }
        if named_after(before, p, image, r) {
            return Ok(0);
        }
        return Err(Defect::Unsorted);
    }
    if family != tag {
        return other_tag(family, tag);
    }
    let from = p.start + HEAD;
    let start = r.start + HEAD;
    if tag == IPV6_NETWORK {
        return block_after(before, from, image, start, 16, opens, stack, depth);
    }
    block_after(before, from, image, start, 4, opens, stack, depth)
}
