// Whether a text is a host name in lower case.
//
// The bytes of a name of at most 63 bytes are tested in runs of a fixed size with no early way out, which the compiler turns into vector
// instructions.
#![tactic(auto)]

ghost use Rattle.std.specs.Prelude.{◌≡◌, not, ◌&&◌, ◌+◌, ◌-◌, ◌≤◌, ◌<◌, length};
ghost use Rattle.octets.specs.Lists.{within};
ghost use Rattle.texts.specs.Texts.{good_host};
ghost use Rattle.texts.specs.Run.{run};
ghost use Rattle.hosts.specs.HostScan.{letter_or_digit};
ghost use Rattle.hosts.specs.Pairs.{may_follow, follow_at};

use registry::MOST_HOST;

fn letter_or_digit(b: u8) -> bool
    ensures { result ≡ letter_or_digit b }
{
    ((b'a' <= b) & (b <= b'z')) | ((b'0' <= b) & (b <= b'9'))
}

// Whether y may follow x in a host name.
fn may_follow(x: u8, y: u8) -> bool
    ensures { result ≡ may_follow x y }
{
    let letter = (b'a' <= y) & (y <= b'z');
    let digit = (b'0' <= y) & (y <= b'9');
    let hyphen = (y == b'-') & (x != b'.');
    let dot = (y == b'.') & (x != b'.') & (x != b'-');
    letter | digit | hyphen | dot
}

// Whether each of the n bytes from at on may be followed by the next one. step is 1, and the compiler is not to know it: where it sees that the
// two bytes are neighbours, it makes no vectors of the run.
fn host_run(s: &[u8], step: usize, at: usize, n: usize) -> bool
    requires { (step ≡ 1) × (at + n < length s.now) }
    ensures { result ≡ run (follow_at s.now) at n }
{
    let mut good = true;
    for i in 0..n {
        let j = at + i;
        good = good & may_follow(s[j], s[j + step]);
    }
    good
}

// The same of all bytes but the last, by the first n and the last n of them, which overlap or touch.
fn host_ends(s: &[u8], step: usize, n: usize) -> bool
    requires { (step ≡ 1) × (n < length s.now) × (length s.now ≤ n + n + 1) }
    ensures { result ≡ run (follow_at s.now) 0 (length s.now - 1) }
{
    let first = host_run(s, step, 0, n);
    let last = host_run(s, step, s.len() - 1 - n, n);
    first & last
}

// The same by the first n, the next n and the last n.
fn host_thirds(s: &[u8], step: usize, n: usize) -> bool
    requires { (step ≡ 1) × (n + n < length s.now) × (length s.now ≤ n + n + n + 1) }
    ensures { result ≡ run (follow_at s.now) 0 (length s.now - 1) }
{
    let first = host_run(s, step, 0, n);
    let second = host_run(s, step, n, n);
    let last = host_run(s, step, s.len() - 1 - n, n);
    first & second & last
}

// Whether each byte of a name of 1 to 65 bytes may be followed by the next one.
fn host_pairs(s: &[u8], step: usize) -> bool
    requires { (step ≡ 1) × (1 ≤ length s.now) × (length s.now ≤ 65) }
    ensures { result ≡ run (follow_at s.now) 0 (length s.now - 1) }
{
    let n = s.len() - 1;
    if 16 < n {
        if n <= 32 {
            return host_ends(s, step, 16);
        }
        if n <= 48 {
            return host_thirds(s, step, 16);
        }
        return host_ends(s, step, 32);
    }
    if 8 <= n {
        return host_ends(s, step, 8);
    }
    if 4 <= n {
        return host_ends(s, step, 4);
    }
    host_run(s, 1, 0, n)
}

// The same as host_ok, of 1 to 63 bytes: no label can be too long. The first and the last byte come after the pairs, which is faster. Of the
// bytes that may follow another, those from 0 on are the letters and digits.
fn short_host_ok(s: &[u8], step: usize) -> bool
    requires { (step ≡ 1) × (1 ≤ length s.now) × (length s.now ≤ 63) }
    ensures { result ≡ good_host s.now }
{
    if !host_pairs(s, step) {
        return false;
    }
    letter_or_digit(s[0]) & (b'0' <= s[s.len() - 1])
}

// Whether a label of so many bytes, the last one a hyphen or not, may end.
fn label_ok(label: usize, hyphen: bool) -> bool
    ensures { result ≡ (within 1 63 label && not hyphen) }
{
    (1 <= label) & (label <= 63) & !hyphen
}

// The same as host_ok, byte by byte.
fn long_host_ok(s: &[u8]) -> bool
    ensures { result ≡ good_host s.now }
{
    if MOST_HOST < s.len() {
        return false;
    }
    let mut label: usize = 0;
    let mut hyphen = false;
    for b in s {
        let b = *b;
        if b == b'.' {
            if !label_ok(label, hyphen) {
                return false;
            }
            label = 0;
            hyphen = false;
        } else if b == b'-' {
            if label < 1 {
                return false;
            }
            label += 1;
            hyphen = true;
        } else {
            if !letter_or_digit(b) {
                return false;
            }
            label += 1;
            hyphen = false;
        }
    }
    label_ok(label, hyphen)
}

// Whether s is a host name in lower case.
pub fn host_ok(s: &[u8]) -> bool
    ensures { result ≡ good_host s.now }
{
    let n = s.len();
    let step = n / 4294967296 + 1;
    if n < 1 {
        return long_host_ok(s);
    }
    if 63 < n {
        return long_host_ok(s);
    }
    short_host_ok(s, step)
}
