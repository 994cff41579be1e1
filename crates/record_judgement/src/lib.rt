// One record judged by itself: defects 3 to 5.
#![tactic(auto)]

ghost use Rattle.std.specs.Prelude.{◌≤◌, length};
ghost use Rattle.record_judgement.specs.Judging.{Judging};

use fields::Field;
use record_contents::contents_ok;
use record_defect::defect_of;
use record_shape::shape_of;
use records::Layout;
use registry::{Defect, ENTITY, IPV4_NETWORK};

// The record that a field is: the position of its field 22, or the lowest of the defects 3 to 5.
pub fn judge(image: &[u8], field: Field) -> Result<usize, Defect>
    requires { (field.start ≤ field.end) × (field.end ≤ length image.now) }
    ensures { Judging image.now field.tag field.start field.end result }
{
    if field.tag < IPV4_NETWORK {
        return Err(Defect::BadRecord);
    }
    if ENTITY < field.tag {
        return Err(Defect::BadRecord);
    }
    let Some(shape) = shape_of(image, field) else {
        return Err(defect_of(image, field));
    };
    let layout = Layout {
        tag: field.tag,
        start: field.start,
        middle: shape.middle,
        end: field.end,
    };
    if !contents_ok(image, layout, shape.from, shape.to) {
        return Err(Defect::BadContents);
    }
    Ok(shape.middle)
}
