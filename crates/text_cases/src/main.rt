// Runs texts through the readers of a path's parts, and writes what each of them found.
//
// A line of the input is a letter, a space and a text. The output repeats it, and after an arrow says what was found:
//   a address, p prefix A/L, n AS number, m N or N-M: the family's tag, first and last
//   h handle, t name, d host name: the text
//   H T D patterns of these, which a space and a name may follow: the form, and whether the name matches
//   w address: its written form
//   o decimal up to 255, g group of hex digits: the number
//   s bytes of a path and query: whether they are allowed, and whether an escape is from %80 up
//   x escapes: the decoded bytes
// A line that begins with # is only repeated.
#![tactic(auto)]

ghost use Rattle.std.specs.Prelude.{◌≤◌, length};
ghost use Rattle.registry.specs.Limits.{most_path};

use files::{part, read_full};
use ip::Family;
use pattern::{Form, PatternError};
use registry::{MOST_PATH, Text};
use segment::Target;
use text_segment::{Pattern, ShortText};

fn say(out: &impl Print, s: &[u8]) {
    let _ = out.write_all(s);
}

fn say_hex(out: &impl Print, s: &[u8]) {
    for b in s {
        let _ = print!(out; "{b:02x}");
    }
}

// The bytes of a number of the family, after so many zeros.
fn zeros_before(family: u8) -> usize
    ensures { result ≤ 16 }
{
    if family == 0x11 { 0 } else { 12 }
}

fn say_target(out: &impl Print, t: Option<Target>) {
    let Some(t) = t else {
        say(out, b"no");
        return;
    };
    let range = t.range;
    let first = range.first.bytes;
    let last = range.last.bytes;
    let at = zeros_before(t.family);
    say(out, b"ok ");
    let _ = print!(out; "{:02x}", t.family);
    say(out, b" ");
    say_hex(out, part(&first, at, 16));
    say(out, b" ");
    say_hex(out, part(&last, at, 16));
}

// A/L, cut at the first slash.
fn say_prefix(out: &impl Print, s: &[u8])
    requires { length s.now ≤ most_path }
{
    let j = pieces::first_piece(s, b'/');
    if j == s.len() {
        say(out, b"no length");
        return;
    }
    say_target(
        out,
        segment::read_prefix_segments(part(s, 0, j), part(s, j + 1, s.len())),
    );
}

fn say_name(out: &impl Print, name: Option<ShortText>) {
    match name {
        Some(text) => {
            say(out, b"ok ");
            say(out, text.as_slice());
        }
        None => say(out, b"no"),
    }
}

fn say_form(out: &impl Print, form: Form) {
    match form {
        Form::Exact => say(out, b"exact"),
        Form::Asterisk(at) => {
            say(out, b"asterisk ");
            let _ = out.print(at);
        }
    }
}

// What was refused keeps no text.
fn matches(text: Text, read: &Result<Pattern, PatternError>, name: &[u8]) -> bool {
    let fold = pattern::folds_case(text);
    match read {
        Ok(pattern) => pattern::form_matches(fold, Ok(pattern.form), pattern.text.as_slice(), name),
        Err(e) => pattern::form_matches(fold, Err(*e), b"", name),
    }
}

// A pattern, which a space and a name may follow.
fn say_pattern(out: &impl Print, text: Text, s: &[u8])
    requires { length s.now ≤ most_path }
{
    let j = pieces::first_piece(s, b' ');
    let read = text_segment::read_pattern(text, part(s, 0, j));
    match &read {
        Ok(pattern) => say_form(out, pattern.form),
        Err(PatternError::Unsupported) => say(out, b"unsupported"),
        Err(PatternError::Malformed) => say(out, b"malformed"),
    }
    if j == s.len() {
        return;
    }
    if matches(text, &read, part(s, j + 1, s.len())) {
        say(out, b" matches");
    } else {
        say(out, b" differs");
    }
}

// The text of an address of four bytes or sixteen.
fn say_text(out: &impl Print, address: &[u8]) {
    let mut text = [0u8; 39];
    if let Ok(n) = address_text::address_text(address, &mut text) {
        say(out, part(&text, 0, n as usize));
    }
}

// The address that is read, written again.
fn say_written(out: &impl Print, s: &[u8]) {
    let Some(read) = ip::read_address(s) else {
        say(out, b"no");
        return;
    };
    let bytes = read.address.bytes;
    match read.family {
        Family::V4 => say_text(out, part(&bytes, 12, 16)),
        Family::V6 => say_text(out, &bytes),
    }
}

fn say_number(out: &impl Print, n: Option<u64>) {
    let Some(v) = n else {
        say(out, b"no");
        return;
    };
    say(out, b"ok ");
    let _ = out.print(v);
}

fn say_bytes(out: &impl Print, s: &[u8]) {
    if uri::is_sound(s) {
        say(out, b"allowed");
    } else {
        say(out, b"not allowed");
    }
    if uri::has_high_escape(s) {
        say(out, b", an escape from %80 up");
    }
}

fn say_decoded(out: &impl Print, s: &[u8])
    requires { length s.now ≤ most_path }
{
    let mut buffer = [0u8; MOST_PATH];
    let n = uri::decode(s, &mut buffer);
    say_hex(out, part(&buffer, 0, n));
}

fn say_found(out: &impl Print, letter: u8, s: &[u8])
    requires { length s.now ≤ most_path }
{
    match letter {
        b'a' => say_target(out, segment::read_address_segment(s)),
        b'p' => say_prefix(out, s),
        b'n' => say_target(out, autnum_segment::read_autnum_segment(s)),
        b'm' => say_target(out, autnum_segment::read_autnums_segment(s)),
        b'h' => say_name(out, text_segment::read_named(Text::Handle, s)),
        b't' => say_name(out, text_segment::read_named(Text::Name, s)),
        b'd' => say_name(out, text_segment::read_named(Text::Host, s)),
        b'H' => say_pattern(out, Text::Handle, s),
        b'T' => say_pattern(out, Text::Name, s),
        b'D' => say_pattern(out, Text::Host, s),
        b'w' => say_written(out, s),
        b'o' => say_number(out, numeral::read_decimal(s, 255)),
        b'g' => say_number(out, numeral::read_h16(s)),
        b's' => say_bytes(out, s),
        b'x' => say_decoded(out, s),
        _ => say(out, b"no such letter"),
    }
}

fn run_line(out: &impl Print, line: &[u8]) {
    say(out, line);
    if line.len() < 2 {
        say(out, b"\n");
        return;
    }
    if MOST_PATH < line.len() {
        say(out, b" -> too long\n");
        return;
    }
    if line[0] != b'#' {
        say(out, b" -> ");
        say_found(out, line[0], &line[2..]);
    }
    say(out, b"\n");
}

// A line feed at the end starts no line, as cutting at each one would have it.
fn run_lines(out: &impl Print, s: &[u8]) {
    let mut rest = s;
    while 0 < rest.len() {
        let j = pieces::first_piece(rest, b'\n');
        run_line(out, &rest[..j]);
        if j == rest.len() {
            return;
        }
        rest = &rest[j + 1..];
    }
}

fn main(rt: HostRuntime) {
    let mut buffer = [0u8; 65536];
    let (n, _) = read_full(&mut rt.stdin(), &mut buffer);
    run_lines(&rt, &buffer[..n]);
}
