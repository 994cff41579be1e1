// The names and the templates of router filters (S12.7).
#![tactic(auto)]

ghost use Rattle.std.specs.Prelude.{◌≡◌, cond, [], ◌++◌, ◌≤◌, length};
ghost use Rattle.octets.specs.Ascii.{code};
ghost use Rattle.output.specs.Writing.{Written};
ghost use Rattle.formats.specs.Template.{is_allowed, name_in, end_of};
ghost use Rattle.formats.specs.Styles.{style_of, template_at};

use output::put_bytes;
use pieces::{between, has_byte, is_word};

// How the prefixes are written.
#[derive(Clone, Copy)]
pub enum Format {
    Plain,
    Cisco,
    Bird,
    Juniper,
    Json,
}

fn is_bird(i: usize, c: u8) -> bool
    ensures { result ≡ is_allowed Format.Bird i c }
{
    if i == 0 {
        if between(b'0', b'9', c) {
            return false;
        }
    }
    is_word(c, b"_")
}

// Whether a name of the format may have the byte c at place i.
fn is_allowed(format: Format, i: usize, c: u8) -> bool
    ensures { result ≡ is_allowed format i c }
{
    match format {
        Format::Plain => true,
        Format::Cisco => is_word(c, b"-_."),
        Format::Bird => is_bird(i, c),
        Format::Juniper => is_word(c, b"-_."),
        Format::Json => !has_byte(c, b"\"\\"),
    }
}

fn name_byte(format: Format, i: usize, c: u8) -> u8
    ensures { result ≡ cond (is_allowed format i c) c (code "_") }
{
    if is_allowed(format, i, c) {
        return c;
    }
    b'_'
}

// The name of a filter (S12.7), of as many bytes as the handle.
pub fn put_name(format: Format, handle: &[u8], out: &mut [u8]) -> usize
    requires { length handle.now ≤ length out.old }
    ensures { Written (name_in format handle.now) out.old out.new result }
{
    for (i, c) in handle.iter().enumerate() {
        out[i] = name_byte(format, i, *c);
    }
    handle.len()
}

// The templates. Cisco has one for IPv4 and one for IPv6.
#[derive(Clone, Copy)]
pub enum Style {
    Plain,
    CiscoIpv4,
    CiscoIpv6,
    Bird,
    Juniper,
    Json,
}

// The template of a format, by the bytes of an address.
pub fn style_of(format: Format, width: usize) -> Style
    ensures { result ≡ style_of format width }
{
    match format {
        Format::Plain => Style::Plain,
        Format::Cisco => {
            if width == 4 {
                return Style::CiscoIpv4;
            }
            Style::CiscoIpv6
        }
        Format::Bird => Style::Bird,
        Format::Juniper => Style::Juniper,
        Format::Json => Style::Json,
    }
}

// A name between two texts.
fn put_around(front: &[u8], name: &[u8], back: &[u8], out: &mut [u8]) -> usize
    requires { length (front.now ++ name.now ++ back.now) ≤ length out.old }
    ensures { Written (front.now ++ name.now ++ back.now) out.old out.new result }
{
    let mut at = put_bytes(front, out);
    at += put_bytes(name, &mut out[at..]);
    at + put_bytes(back, &mut out[at..])
}

// What stands before the first prefix.
#[tactic(auto, unfolding(octets::specs::Ascii::ascii, crate::specs::Template::template_of))]
pub fn put_head(style: Style, name: &[u8], out: &mut [u8]) -> usize
    requires { length (template_at style name.now).head ≤ length out.old }
    ensures { Written (template_at style name.now).head out.old out.new result }
{
    match style {
        Style::Plain => put_bytes(b"", out),
        Style::CiscoIpv4 => put_around(b"no ip prefix-list ", name, b"\n", out),
        Style::CiscoIpv6 => put_around(b"no ipv6 prefix-list ", name, b"\n", out),
        Style::Bird => put_around(b"", name, b" = [\n", out),
        Style::Juniper => put_around(
            b"policy-options {\nreplace:\n prefix-list ",
            name,
            b" {\n",
            out,
        ),
        Style::Json => put_around(b"{ \"", name, b"\": [\n", out),
    }
}

// What stands before each prefix.
#[tactic(auto, unfolding(octets::specs::Ascii::ascii, crate::specs::Template::template_of))]
pub fn put_before(style: Style, name: &[u8], out: &mut [u8]) -> usize
    requires { length (template_at style name.now).before ≤ length out.old }
    ensures { Written (template_at style name.now).before out.old out.new result }
{
    match style {
        Style::Plain => put_around(b"", name, b" ", out),
        Style::CiscoIpv4 => put_around(b"ip prefix-list ", name, b" permit ", out),
        Style::CiscoIpv6 => put_around(b"ipv6 prefix-list ", name, b" permit ", out),
        Style::Bird => put_bytes(b"    ", out),
        Style::Juniper => put_bytes(b"    ", out),
        Style::Json => put_bytes(b"    { \"prefix\": \"", out),
    }
}

// What stands between an address and its length.
#[tactic(auto, unfolding(octets::specs::Ascii::ascii, crate::specs::Template::template_of))]
pub fn put_slash(style: Style, out: &mut [u8]) -> usize
    requires { length (template_at style []).slash ≤ length out.old }
    ensures { Written (template_at style []).slash out.old out.new result }
{
    match style {
        Style::Json => put_bytes(b"\\/", out),
        _ => put_bytes(b"/", out),
    }
}

// What follows each prefix but the last.
#[tactic(auto, unfolding(octets::specs::Ascii::ascii, crate::specs::Template::template_of))]
fn put_separator(style: Style, out: &mut [u8]) -> usize
    requires { length (template_at style []).separator ≤ length out.old }
    ensures { Written (template_at style []).separator out.old out.new result }
{
    match style {
        Style::Bird => put_bytes(b",\n", out),
        Style::Juniper => put_bytes(b";\n", out),
        Style::Json => put_bytes(b"\", \"exact\": true },\n", out),
        _ => put_bytes(b"\n", out),
    }
}

// What follows the last prefix.
#[tactic(auto, unfolding(octets::specs::Ascii::ascii, crate::specs::Template::template_of))]
fn put_last(style: Style, out: &mut [u8]) -> usize
    requires { length (template_at style []).last ≤ length out.old }
    ensures { Written (template_at style []).last out.old out.new result }
{
    match style {
        Style::Juniper => put_bytes(b";\n", out),
        Style::Json => put_bytes(b"\", \"exact\": true }\n", out),
        _ => put_bytes(b"\n", out),
    }
}

// What follows a prefix after which so many are left.
pub fn put_end(style: Style, left: usize, out: &mut [u8]) -> usize
    requires { length (end_of (template_at style []) left) ≤ length out.old }
    ensures { Written (end_of (template_at style []) left) out.old out.new result }
{
    if left == 0 {
        return put_last(style, out);
    }
    put_separator(style, out)
}

// What stands at the end.
#[tactic(auto, unfolding(octets::specs::Ascii::ascii, crate::specs::Template::template_of))]
pub fn put_foot(style: Style, out: &mut [u8]) -> usize
    requires { length (template_at style []).foot ≤ length out.old }
    ensures { Written (template_at style []).foot out.old out.new result }
{
    match style {
        Style::Bird => put_bytes(b"];\n", out),
        Style::Juniper => put_bytes(b" }\n}\n", out),
        Style::Json => put_bytes(b"] }\n", out),
        _ => put_bytes(b"", out),
    }
}
