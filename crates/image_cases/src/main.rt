// Runs the check of an image, and the handle and name parts, on the images of a file and on images at the limits.
//
// The file `defects` holds images one after another: the length in two bytes, high byte first, then the image.
// For each image one line with defect and place, 0 0 for a sound one; then a line for each of its records and for the number after the last:
// where its handle starts, its handle, where its name starts, its name.
#![tactic(auto)]

ghost use Rattle.std.specs.Prelude.{◌≤◌};

use files::{fail, image_room, read_full};
use registry::{Flaw, Part};
use std::fs;
use std::rt::Files;

fn write(rt: &impl Print, text: &[u8]) {
    let _ = rt.write_all(text);
}

fn number(rt: &impl Print, n: u64) {
    let _ = rt.print(n);
}

// A line with defect and place; the number of lines of parts to follow.
fn verdict(rt: &impl Print, v: Result<u32, Flaw>) -> u32 {
    match v {
        Ok(count) => {
            write(rt, b"0 0\n");
            count
        }
        Err(flaw) => {
            number(rt, u64::from(flaw.defect.number()));
            write(rt, b" ");
            number(rt, u64::from(flaw.place));
            write(rt, b"\n");
            0
        }
    }
}

fn part(rt: &impl Print, image: &[u8], record: u32, which: Part) {
    let span = entries::part_span(image, record, which);
    number(rt, span.start as u64);
    write(rt, b" ");
    write(rt, entries::part(image, record, which));
}

fn parts(rt: &impl Print, image: &[u8], record: u32) {
    part(rt, image, record, Part::Handle);
    write(rt, b" ");
    part(rt, image, record, Part::Name);
    write(rt, b"\n");
}

fn check_with_parts(rt: &impl Print, image: &[u8]) {
    let count = verdict(rt, image::check(image));
    if count == 0 {
        return;
    }
    for record in 0..count {
        parts(rt, image, record);
    }
    parts(rt, image, count);
}

// Where the next image of the file starts.
fn next(rt: &impl Print, file: &[u8], at: usize) -> usize {
    if file.len() < at {
        return 0;
    }
    if file.len() - at < 2 {
        return 0;
    }
    let size = usize::from(u16::from_be_bytes([file[at], file[at + 1]]));
    let start = at + 2;
    if file.len() - start < size {
        return 0;
    }
    let end = start + size;
    check_with_parts(rt, &file[start..end]);
    end
}

fn all(rt: &impl Print, file: &[u8]) {
    let mut at: usize = 0;
    for _ in 0..file.len() {
        at = next(rt, file, at);
        if at == 0 {
            return;
        }
    }
}

// The images of the file, as far as it can be read.
fn vectors(rt: &(impl Files + Print), err: &impl Print) {
    match fs::open(rt, "defects") {
        Ok(mut from) => {
            let mut file = image_room();
            let (n, _) = read_full(&mut from, &mut file);
            all(rt, &file[..n]);
        }
        Err(e) => fail(err, b"defects", &e),
    }
}

// Images at the limits, written into a buffer. Nothing is written past its end.

fn put(out: &mut [u8; 262145], at: usize, b: u8) -> usize {
    if at < 262145 {
        out[at] = b;
        return at + 1;
    }
    at
}

fn put_number(out: &mut [u8; 262145], at: usize, n: u32) -> usize {
    let at = put(out, at, (n / 16777216 % 256) as u8);
    let at = put(out, at, (n / 65536 % 256) as u8);
    let at = put(out, at, (n / 256 % 256) as u8);
    put(out, at, (n % 256) as u8)
}

fn put_header(out: &mut [u8; 262145], at: usize, tag: u8, size: u8) -> usize {
    let at = put(out, at, tag);
    let at = put(out, at, 0);
    put(out, at, size)
}

fn put_letter(out: &mut [u8; 262145], at: usize, n: u32) -> usize {
    put(out, at, (0x41 + n % 16) as u8)
}

fn put_dots(out: &mut [u8; 262145], from: usize, count: u8) -> usize {
    let mut at = from;
    for _ in 0..count {
        at = put(out, at, 0x2E);
    }
    at
}

// A text field: n as four letters, and then so many dots.
fn put_text(out: &mut [u8; 262145], at: usize, tag: u8, n: u32, dots: u8) -> usize
    requires { dots ≤ 60 }
{
    let at = put_header(out, at, tag, 4 + dots);
    let at = put_letter(out, at, n / 4096);
    let at = put_letter(out, at, n / 256);
    let at = put_letter(out, at, n / 16);
    let at = put_letter(out, at, n);
    put_dots(out, at, dots)
}

fn put_start(out: &mut [u8; 262145]) -> usize {
    let at = put_header(out, 0, 1, 1);
    put(out, at, 1)
}

// An IPv4 network with a handle and a name of four bytes.
fn put_block(out: &mut [u8; 262145], at: usize, n: u32, first: u32, last: u32) -> usize {
    let at = put_header(out, at, 0x10, 29);
    let at = put_header(out, at, 0x20, 8);
    let at = put_number(out, at, first);
    let at = put_number(out, at, last);
    let at = put_text(out, at, 0x21, n, 0);
    let at = put_text(out, at, 0x22, n, 0);
    let at = put_header(out, at, 0x23, 1);
    put(out, at, 1)
}

// An entity with a handle and a name of four bytes and so many dots.
fn put_entity(out: &mut [u8; 262145], at: usize, n: u32, dots: u8) -> usize
    requires { dots ≤ 60 }
{
    let at = put_header(out, at, 0x15, 14 + 2 * dots);
    let at = put_text(out, at, 0x21, n, dots);
    put_text(out, at, 0x22, n, dots)
}

// A line with the defect and place of the first n bytes.
fn show(rt: &impl Print, label: &[u8], out: &[u8], n: usize) {
    write(rt, label);
    write(rt, b": ");
    if n <= out.len() {
        verdict(rt, image::check(&out[..n]));
    }
}

fn put_entities(out: &mut [u8; 262145], count: u32) -> usize {
    let mut at = put_start(out);
    for n in 0..count {
        at = put_entity(out, at, n, 60);
    }
    at
}

// Records of 137 bytes and one of 59 make 262,144 bytes.
fn longest(rt: &impl Print, out: &mut [u8; 262145]) {
    let at = put_entities(out, 1913);
    put_entity(out, at, 1913, 21);
    show(rt, b"262,144 bytes", out, 262144);
    show(rt, b"262,143 bytes", out, 262143);
    show(rt, b"262,145 bytes", out, 262145);
}

// Blocks nested in each other, or side by side and of one address each. A block is 32 bytes long.
fn put_blocks(out: &mut [u8; 262145], count: u32, nested: bool) {
    let mut at = put_start(out);
    for n in 0..count {
        let last = if nested { last_of(n) } else { n };
        at = put_block(out, at, n, n, last);
    }
}

fn last_of(n: u32) -> u32 {
    if n < 10000 { 10000 - n } else { n }
}

fn siblings(rt: &impl Print, out: &mut [u8; 262145]) {
    put_blocks(out, 4097, false);
    show(rt, b"4,096 records", out, 131076);
    show(rt, b"4,097 records", out, 131108);
}

// A chain, and another block in place of its last one.
fn chain(rt: &impl Print, out: &mut [u8; 262145]) {
    put_blocks(out, 4096, true);
    show(rt, b"chain of 4,096", out, 131076);
    chained(rt, out, b"sticking out of the chain", 4095, 10001);
    chained(rt, out, b"sticking out of the innermost", 5906, 5907);
    chained(rt, out, b"after the innermost", 5907, 5907);
    chained(rt, out, b"after the chain", 10001, 10001);
}

fn chained(rt: &impl Print, out: &mut [u8; 262145], name: &[u8], first: u32, last: u32) {
    put_block(out, 131044, 0, first, last);
    show(rt, name, out, 131076);
}

// One block of 36 bytes with the start.
fn ends(rt: &impl Print, out: &mut [u8; 262145]) {
    let at = put_start(out);
    put_block(out, at, 0, 0, 0);
    show(rt, b"record to the end", out, 36);
    show(rt, b"record one byte past the end", out, 35);
}

// The same block with another length of the record, which is at 6.
fn record_lengths(rt: &impl Print, out: &mut [u8; 262145]) {
    put(out, 6, 30);
    show(rt, b"length of the record one more", out, 36);
    put(out, 6, 28);
    show(rt, b"length of the record one less", out, 36);
    put(out, 6, 29);
}

// The same block with another length of its field 23, which is at 34.
fn field_lengths(rt: &impl Print, out: &mut [u8; 262145]) {
    put(out, 34, 2);
    show(rt, b"length of the last field one more", out, 36);
    put(out, 34, 0);
    show(rt, b"length of the last field one less", out, 36);
}

fn main(rt: HostRuntime) {
    vectors(&rt, &rt.stderr());
    let mut out = image_room();
    longest(&rt, &mut out);
    siblings(&rt, &mut out);
    chain(&rt, &mut out);
    ends(&rt, &mut out);
    record_lengths(&rt, &mut out);
    field_lengths(&rt, &mut out);
}
