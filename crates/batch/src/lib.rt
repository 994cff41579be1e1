// Many paths in one call (S2.5), on an image that is checked already.
#![tactic(auto)]

ghost use Rattle.image.specs.Image.{image_of};
ghost use Rattle.answers.specs.Answered.{AnsweredBy};
ghost use Rattle.batches.specs.Batch.{paths_of, batch_in};

use answers::{Answer, Reason};
use batch_paths::{answer_paths, count_paths};
use entries::SoundImage;
use registry::MOST_PATHS;

// Answers the paths of a text from a sound image.
pub fn answer(text: &[u8], image: SoundImage, list: &mut [u32]) -> Answer
    ensures { AnsweredBy (batch_in (paths_of text.now) (image_of image.entry.bytes.now)) result list.old list.new }
{
    if MOST_PATHS < count_paths(text) {
        return answers::reply(Reason::TooManyPaths, None, 0);
    }
    let answered = answer_paths(text, image, list);
    answers::reply(Reason::Answered, None, answered)
}
