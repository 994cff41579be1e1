// One path of a batch, on an image that is checked already: its answer is written to the front of a list.
#![tactic(auto)]

ghost use Rattle.std.specs.Prelude.{◌≤◌, ◌≡◌, [], ◌++◌, length, drop};
ghost use Rattle.image.specs.Image.{image_of};
ghost use Rattle.answers.specs.Reply.{line};
ghost use Rattle.answers.specs.Answered.{reply_of};
ghost use Rattle.batch_line.specs.Line.{LineWritten};

use answers::Answer;
use entries::SoundImage;

// The four numbers of an answer, to the first places of the list.
fn write_head(a: Answer, list: &mut [u32])
    requires { 4 ≤ length list.old }
    ensures { list.new ≡ line (reply_of a []) ++ drop 4 list.old }
{
    list[0] = a.reason.status();
    list[1] = a.reason.number();
    list[2] = kinds::kind_number(a.kind);
    list[3] = a.count;
}

// Answers one path: status, reason, kind and count, then the record numbers. Gives how many places were written.
pub fn answer_path(path: &[u8], image: SoundImage, list: &mut [u32]) -> usize
    requires { 4 ≤ length list.old }
    ensures { LineWritten path.now (image_of image.entry.bytes.now) list.old list.new result }
{
    let a = first_call::answer(path, image, &mut list[4..]);
    write_head(a, list);
    4 + answers::reports(a) as usize
}
