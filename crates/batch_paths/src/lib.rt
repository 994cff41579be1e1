// The paths of a batch: counted, and answered one after another on an image that is checked already, each into the rest of the list.
#![tactic(auto)]

ghost use Rattle.std.specs.Prelude.{◌≤◌, ◌≡◌, length};
ghost use Rattle.registry.specs.Limits.{most_paths};
ghost use Rattle.image.specs.Image.{image_of};
ghost use Rattle.batches.specs.Batch.{paths_of};
ghost use Rattle.batch_paths.specs.Answering.{Answering};

use entries::SoundImage;

// How many paths a text has: one more than line feeds.
// No `count`, for speed: this loop takes fewer steps for each byte.
pub fn count_paths(text: &[u8]) -> usize
    ensures { result ≡ length (paths_of text.now) }
{
    let mut feeds: usize = 0;
    for b in text {
        if *b == b'\n' {
            feeds += 1;
        }
    }
    feeds + 1
}

// Answers the paths of a text, one after another, until fewer than four places are left. Gives how many were answered.
pub fn answer_paths(text: &[u8], image: SoundImage, list: &mut [u32]) -> u32
    requires { length (paths_of text.now) ≤ most_paths }
    ensures { Answering (paths_of text.now) (image_of image.entry.bytes.now) list.old list.new result }
{
    let mut answered: u32 = 0;
    let mut at = 0;
    for path in text.split(|b| *b == b'\n') {
        if list.len() - at < 4 {
            return answered;
        }
        at += batch_line::answer_path(path, image, &mut list[at..]);
        answered += 1;
    }
    answered
}
