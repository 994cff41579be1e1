// The fields of a record, as a good one has them.
#![tactic(auto)]

ghost use Rattle.std.specs.Prelude.{◌≡◌, ◌*◌, ◌≤◌, length};
ghost use Rattle.registry.specs.Tags.{width_of, as_block, entity, ipv4_network};
ghost use Rattle.fields.specs.Positions.{field_at, end_between};
ghost use Rattle.record_shape.specs.Shaped.{Shaped};

use fields::Field;
use reader::read_to;
use registry::{AS_BLOCK, HEAD, IPV6_NETWORK};

// Where the fields of a record lie: the contents of field 21 from `from` up to middle, where field 22 starts, which ends at `to`.
#[derive(Clone, Copy)]
pub struct Shape {
    pub from: usize,
    pub middle: usize,
    pub to: usize,
}

// The reader of what ends at `end` steps to a field of the tag that has from low to high bytes.
fn step(image: &[u8], end: usize, at: usize, tag: u8, low: u8, high: u8) -> Option<usize>
    requires { end ≤ length image.now }
    ensures { result ≡ end_between low high tag (field_at image.now at end) }
{
    let enclosing = &image[..end];
    read_to(enclosing, at, tag, low, high)
}

// Field 20 of `size` bytes, then 21 and 22 of at most 255 bytes, then field 23 of one byte, four bytes before the end.
fn sized_shape(image: &[u8], field: Field, size: u8) -> Option<Shape>
    requires { (field.start ≤ field.end) × (field.end ≤ length image.now) × (ipv4_network ≤ field.tag) × (field.tag ≤ as_block) × (size ≡ 2 * width_of field.tag) }
    ensures { Shaped image.now field.tag field.start field.end result }
{
    let at = step(image, field.end, field.start, 0x20, size, size)?;
    let middle = step(image, field.end, at, 0x21, 0, 255)?;
    let to = step(image, field.end, middle, 0x22, 0, 255)?;
    if field.end - to != 4 {
        return None;
    }
    step(image, field.end, to, 0x23, 1, 1)?;
    Some(Shape {
        from: at + HEAD,
        middle,
        to,
    })
}

// The fields of a block. The size of field 20 is a constant in each call.
fn block_shape(image: &[u8], field: Field) -> Option<Shape>
    requires { (field.start ≤ field.end) × (field.end ≤ length image.now) × (ipv4_network ≤ field.tag) × (field.tag ≤ as_block) }
    ensures { Shaped image.now field.tag field.start field.end result }
{
    if field.tag == IPV6_NETWORK {
        return sized_shape(image, field, 32);
    }
    sized_shape(image, field, 8)
}

// The fields of a record of a known tag, one after another, if its texts have at most 255 bytes: no other record is good.
pub fn shape_of(image: &[u8], field: Field) -> Option<Shape>
    requires { (field.start ≤ field.end) × (field.end ≤ length image.now) × (ipv4_network ≤ field.tag) × (field.tag ≤ entity) }
    ensures { Shaped image.now field.tag field.start field.end result }
{
    if field.tag <= AS_BLOCK {
        return block_shape(image, field);
    }
    let middle = step(image, field.end, field.start, 0x21, 0, 255)?;
    let to = step(image, field.end, middle, 0x22, 0, 255)?;
    if to != field.end {
        return None;
    }
    Some(Shape {
        from: field.start + HEAD,
        middle,
        to,
    })
}
