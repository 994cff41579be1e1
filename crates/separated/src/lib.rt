// Numbers in digits with a separator between them, written to the front of a lent buffer.
#![tactic(auto)]

ghost use Rattle.std.specs.Prelude.{[], ◌∷◌, ◌≤◌, length};
ghost use Rattle.numeral.specs.Digits.{numeral_text, following, spelled};
ghost use Rattle.output.specs.Writing.{Written};
ghost use Rattle.digits.specs.Base.{radix};

pub use digits::Base;
use digits::put_number;

// A separator and a number.
fn put_next(sep: u8, base: Base, n: u32, text: &mut [u8]) -> usize
    requires { length (following sep (radix base) (n ∷ [])) ≤ length text.old }
    ensures { Written (following sep (radix base) (n ∷ [])) text.old text.new result }
{
    text[0] = sep;
    1 + put_number(base, n, &mut text[1..])
}

// A separator and a number, for each: it is written into the rest of the text, from where the last one ended.
pub fn put_following(sep: u8, base: Base, numbers: &[u32], text: &mut [u8]) -> usize
    requires { length (following sep (radix base) numbers.now) ≤ length text.old }
    ensures { Written (following sep (radix base) numbers.now) text.old text.new result }
{
    let mut at: usize = 0;
    for n in numbers {
        at += put_next(sep, base, *n, &mut text[at..]);
    }
    at
}

// Numbers with a separator between each two.
pub fn put_spelled(sep: u8, base: Base, numbers: &[u32], text: &mut [u8]) -> usize
    requires { length (spelled sep (radix base) numbers.now) ≤ length text.old }
    ensures { Written (spelled sep (radix base) numbers.now) text.old text.new result }
{
    if numbers.len() == 0 {
        return 0;
    }
    let at = put_number(base, numbers[0], text);
    at + put_following(sep, base, &numbers[1..], &mut text[at..])
}
