// The output line of an answer: its text is written to the start of a lent buffer.
#![tactic(auto)]

ghost use Rattle.std.specs.Prelude.{◌+◌, ◌*◌, ◌≤◌, length, take};
ghost use Rattle.answers.specs.Answered.{reply_of};
ghost use Rattle.output.specs.Writing.{Written};
ghost use Rattle.line_text.specs.Line.{line_text};

use answers::Answer;
use separated::{Base, put_following, put_spelled};

// The line of an answer that reports the first record numbers of the list, so many.
pub fn put_line(a: Answer, list: &[u32], reported: usize, out: &mut [u8]) -> usize
    requires { (reported ≤ length list.now) × (44 + 11 * reported ≤ length out.old) }
    ensures { Written (line_text (reply_of a (take reported list.now))) out.old out.new result }
{
    let head = [
        a.reason.status(),
        a.reason.number(),
        kinds::kind_number(a.kind),
        a.count,
    ];
    let mut at = put_spelled(b' ', Base::Decimal, &head, out);
    at += put_following(b' ', Base::Decimal, &list[..reported], &mut out[at..]);
    out[at] = b'\n';
    at + 1
}
