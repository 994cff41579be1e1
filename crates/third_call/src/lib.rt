// The third call on an image that is checked already: a relation of the block that a record number names.
#![tactic(auto)]

ghost use Rattle.image.specs.Image.{image_of};
ghost use Rattle.answers.specs.Answered.{AnsweredBy};
ghost use Rattle.calls.specs.Calls.{record_in};

use answers::{Answer, Reason};
use entries::SoundImage;
use kinds::Kind;
use registry::{AS_BLOCK, RANGE_OFFSET, Relation};
use relations::Finding;

// The third call on a sound image.
pub fn relation(
    image: SoundImage,
    record_number: u32,
    relation: Relation,
    list: &mut [u32],
) -> Answer
    ensures { AnsweredBy (record_in (image_of image.entry.bytes.now) record_number relation) result list.old list.new }
{
    let kind = Kind::Relation(relation);
    if image.count <= record_number {
        return answers::reply(Reason::NotFound, Some(kind), 0);
    }
    let at = image.start_of(record_number);
    let tag = image.bytes[at];
    if AS_BLOCK < tag {
        return answers::reply(Reason::NotFound, Some(kind), 0);
    }
    let range = address::range_at(image.bytes, at + RANGE_OFFSET, registry::width_of(tag));
    let what = Finding::Relation(relation);
    let listed = relations::find(image, what, tag, range, list);
    answers::reported(kind, listed)
}
