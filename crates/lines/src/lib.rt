// The output line of a path: its text is written to the start of a lent buffer.
#![tactic(auto)]

ghost use Rattle.lines.specs.Lined.{reply_to, Lined};

use line_text::put_line;
use registry::PerRecord;

// Bytes that every line fits into.
pub const ROOM: usize = 45100;

// Answers a path from an image, and writes its line to the start of out, if that has room for every line. Gives the number of bytes written.
pub fn put_answer(path: &[u8], image: &[u8], list: &mut PerRecord, out: &mut [u8]) -> usize
    ensures { Lined (reply_to path.now image.now) list.old list.new out.old out.new result }
{
    let a = rdap::answer(path, image, list);
    if out.len() < ROOM {
        return 0;
    }
    let n = answers::reports(a) as usize;
    put_line(a, list, n, out)
}
