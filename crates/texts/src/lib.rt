// Handles and names: what they may hold.
//
// The bytes of a handle or a name are tested in runs of a fixed size with no early way out, which the compiler turns into vector instructions.
#![tactic(auto)]

ghost use Rattle.std.specs.Prelude.{◌≡◌, ◌+◌, ◌≤◌, length};
ghost use Rattle.octets.specs.Lists.{every};
ghost use Rattle.texts.specs.Texts.{text_byte, good_text};

use registry::MOST_TEXT;

// Whether all bytes are from low to 7E, with no asterisk.
fn text_run(s: &[u8], low: u8) -> bool
    ensures { result ≡ every (text_byte low) s.now }
{
    let mut good = true;
    for b in s {
        good = good & (low <= *b) & (*b <= 0x7E) & (*b != b'*');
    }
    good
}

// The same by the first n and the last n, which overlap or touch.
fn text_ends(s: &[u8], low: u8, n: usize) -> bool
    requires { (1 ≤ n) × (n ≤ 32) × (n ≤ length s.now) × (length s.now ≤ n + n) }
    ensures { result ≡ good_text low s.now }
{
    text_run(&s[..n], low) & text_run(&s[s.len() - n..], low)
}

// The same by the first n, the next n and the last n.
fn text_thirds(s: &[u8], low: u8, n: usize) -> bool
    requires { (1 ≤ n) × (n ≤ 16) × (n + n ≤ length s.now) × (length s.now ≤ n + n + n) }
    ensures { result ≡ good_text low s.now }
{
    text_run(&s[..n], low) & text_run(&s[n..n + n], low) & text_run(&s[s.len() - n..], low)
}

// Whether s has 1 to 64 bytes from low to 7E, with no asterisk.
pub fn text_ok(s: &[u8], low: u8) -> bool
    ensures { result ≡ good_text low s.now }
{
    match s.len() {
        1..=MOST_TEXT => text_run(s, low),
        _ => false,
    }
}

// The same for the check of an image, as fast as can be. It has a parameter for the lowest byte that each use makes a function of its own,
// called from one place, so that each is made a part of its caller.
fn sized_text_ok<const LOW: u8>(s: &[u8]) -> bool
    ensures { result ≡ good_text LOW s.now }
{
    match s.len() {
        8..=16 => text_ends(s, LOW, 8),
        4..=7 => text_ends(s, LOW, 4),
        1..=3 => text_run(s, LOW),
        17..=32 => text_ends(s, LOW, 16),
        33..=48 => text_thirds(s, LOW, 16),
        49..=MOST_TEXT => text_ends(s, LOW, 32),
        _ => false,
    }
}

// Whether s is a handle.
pub fn handle_ok(s: &[u8]) -> bool
    ensures { result ≡ good_text 0x21 s.now }
{
    sized_text_ok::<0x21>(s)
}

// Whether s is a name.
pub fn name_ok(s: &[u8]) -> bool
    ensures { result ≡ good_text 0x20 s.now }
{
    sized_text_ok::<0x20>(s)
}
