// A number in digits, written to the front of a lent buffer.
#![tactic(auto)]

ghost use Rattle.std.specs.Prelude.{◌≡◌, ◌≤◌, ◌<◌, length};
ghost use Rattle.numeral.specs.Digits.{digit_of, numeral_text};
ghost use Rattle.output.specs.Writing.{Written};
ghost use Rattle.digits.specs.Base.{radix};

// What a number is written in.
#[derive(Clone, Copy)]
pub enum Base {
    Decimal,
    Hex,
}

// The digit of a value, in lower case.
fn digit(d: u32) -> u8
    requires { d < 16 }
    ensures { result ≡ digit_of d }
{
    if d < 10 {
        return b'0' + d as u8;
    }
    b'a' + (d as u8 - 10)
}

// How many digits n has to the base. Each turn divides by it, so that no range counts the turns.
fn count_digits<const BASE: u32>(n: u32) -> usize
    requires { 2 ≤ BASE }
    ensures { result ≡ length (numeral_text BASE n) }
{
    let mut v = n;
    let mut k: usize = 1;
    while v >= BASE {
        v /= BASE;
        k += 1;
    }
    k
}

// The digits of n to the base, from the last to the first. Gives how many there are. The base is a constant, which takes less time to divide by.
fn put_digits<const BASE: u32>(n: u32, text: &mut [u8]) -> usize
    requires { (2 ≤ BASE) × (BASE ≤ 16) × (length (numeral_text BASE n) ≤ length text.old) }
    ensures { Written (numeral_text BASE n) text.old text.new result }
{
    let count = count_digits::<BASE>(n);
    let mut v = n;
    let mut i = count - 1;
    while BASE <= v {
        text[i] = digit(v % BASE);
        v /= BASE;
        i -= 1;
    }
    text[i] = digit(v);
    count
}

// A number in digits of the base, in lower case.
pub fn put_number(base: Base, n: u32, text: &mut [u8]) -> usize
    requires { length (numeral_text (radix base) n) ≤ length text.old }
    ensures { Written (numeral_text (radix base) n) text.old text.new result }
{
    match base {
        Base::Decimal => put_digits::<10>(n, text),
        Base::Hex => put_digits::<16>(n, text),
    }
}
