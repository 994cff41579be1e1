// The lowest defect of a record that is refused: its fields read again, whatever their length.
#![tactic(auto)]

ghost use Rattle.std.specs.Prelude.{◌≡◌, ◌≤◌, cond, length};
ghost use Rattle.std.proofs.Math.Seq.{slice};
ghost use Rattle.registry.specs.Tags.{as_block, entity, ipv4_network};
ghost use Rattle.records.specs.Record.{is_whole, record_of};
ghost use Rattle.record_defect.specs.Ends.{end_at, texts_end, block_end};

use fields::Field;
use reader::read;
use registry::{AS_BLOCK, Defect, HEAD, width_of};

// Where the field of the tag at a position ends, whatever its length, if there is one.
fn end_at(image: &[u8], end: usize, at: usize, tag: u8) -> Option<usize>
    requires { end ≤ length image.now }
    ensures { result ≡ end_at image.now end tag at }
{
    let field = read(&image[..end], at)?;
    if field.tag != tag {
        return None;
    }
    Some(field.end)
}

// Where fields 21 and 22 end, of which the first starts at a position.
fn texts_end(image: &[u8], end: usize, at: usize) -> Option<usize>
    requires { end ≤ length image.now }
    ensures { result ≡ texts_end image.now end at }
{
    let middle = end_at(image, end, at, 0x21)?;
    end_at(image, end, middle, 0x22)
}

// Where fields 20 to 23 of a block end, if the first is as long as its range and the last has one byte.
fn block_end(image: &[u8], field: Field) -> Option<usize>
    requires { (field.start ≤ field.end) × (field.end ≤ length image.now) × (ipv4_network ≤ field.tag) × (field.tag ≤ as_block) }
    ensures { result ≡ block_end image.now field.tag field.start field.end }
{
    let at = end_at(image, field.end, field.start, 0x20)?;
    if at != field.start + HEAD + 2 * width_of(field.tag) {
        return None;
    }
    let to = texts_end(image, field.end, at)?;
    let last = end_at(image, field.end, to, 0x23)?;
    if last != to + HEAD + 1 {
        return None;
    }
    Some(last)
}

// Whether a record of a known tag has no defect 4: its fields read again, for a record that is refused.
fn is_whole(image: &[u8], field: Field) -> bool
    requires { (field.start ≤ field.end) × (field.end ≤ length image.now) × (ipv4_network ≤ field.tag) × (field.tag ≤ entity) }
    ensures { result ≡ is_whole (record_of field.tag (slice field.start field.end image.now)) }
{
    let last = if AS_BLOCK < field.tag {
        texts_end(image, field.end, field.start)
    } else {
        block_end(image, field)
    };
    last == Some(field.end)
}

// The lowest defect of a record of a known tag that has defect 4 or 5.
pub fn defect_of(image: &[u8], field: Field) -> Defect
    requires { (field.start ≤ field.end) × (field.end ≤ length image.now) × (ipv4_network ≤ field.tag) × (field.tag ≤ entity) }
    ensures { result ≡ cond (is_whole (record_of field.tag (slice field.start field.end image.now))) Defect.BadContents Defect.BadFields }
{
    if is_whole(image, field) {
        Defect::BadContents
    } else {
        Defect::BadFields
    }
}
