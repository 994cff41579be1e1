// Answers each line of a file of paths from a registry image.
//
// rdap_paths PATHS IMAGE
//
// For each path one line: status, reason, kind, count and the record numbers, as `200 0 2 1 0`.
// PATHS is read in a stream and may be of any length. IMAGE has at most 65,536 bytes.
#![tactic(auto)]

ghost use Rattle.std.specs.Prelude.{◌≡◌, ◌+◌, ◌≤◌, ◌<◌, ◌++◌, IfOk, length, take};
ghost use Rattle.lines.specs.Lined.{longest_line, line_of};
ghost use Rattle.output.specs.Writing.{Written};

use files::{
    MOST_NAME, argument, fail, has_just, part, path_of, read_some, read_whole, small_room, tell,
    write_out,
};
use registry::{MOST_RECORDS, PerRecord};
use std::io::{ErrorKind, Read};
use std::rt::Files;
use std::{fs, io};

// Answers a path, and puts its line after what was put. Gives where the line ends.
fn put_answer(path: &[u8], image: &[u8], list: &mut PerRecord, out: &mut [u8], at: usize) -> usize
    requires { at + longest_line ≤ length out.old }
    ensures { Written (take at out.old ++ line_of path.now image.now) out.old out.new result }
{
    at + lines::put_answer(path, image, list, &mut out[at..])
}

// The most bytes of a line that are kept: longer ones are too long in the same way.
const MOST_LINE: usize = 1025;

// The answers to the lines of a file: the line that is being read, and the output that is put and not yet written out.
#[derive(Drop)]
struct Answers<'a> {
    image: &'a [u8],
    list: PerRecord,
    line: [u8; MOST_LINE],
    kept: usize,
    // what was put stands at the start of 32,768 bytes and room for a line
    out: [u8; 77868],
    put: usize,
    // nobody reads the output any more
    unread: bool,
}

impl<'a> Answers<'a> {
    fn new(image: &'a [u8]) -> Answers<'a> {
        Answers {
            image,
            list: [0; MOST_RECORDS],
            line: [0; MOST_LINE],
            kept: 0,
            out: [0; 77868],
            put: 0,
            unread: false,
        }
    }

    // Writes out what was put, unless nobody reads it.
    fn flush(&mut self, rt: &impl Print, err: &impl Print)
        ensures { self.new.put ≡ 0 }
    {
        if !self.unread {
            if let Err(e) = write_out(rt, err, part(&self.out, 0, self.put)) {
                self.unread = e.kind() == ErrorKind::BrokenPipe;
            }
        }
        self.put = 0;
    }

    // Answers the line that is kept.
    fn end_line(&mut self, rt: &impl Print, err: &impl Print) {
        if 32768 <= self.put {
            self.flush(rt, err);
        }
        let path = part(&self.line, 0, self.kept);
        self.put = put_answer(path, self.image, &mut self.list, &mut self.out, self.put);
        self.kept = 0;
    }

    fn take_byte(&mut self, rt: &impl Print, err: &impl Print, b: u8) {
        if b == b'\n' {
            self.end_line(rt, err);
        } else if self.kept < MOST_LINE {
            self.line[self.kept] = b;
            self.kept += 1;
        }
    }

    fn take_bytes(&mut self, rt: &impl Print, err: &impl Print, bytes: &[u8]) {
        for b in bytes {
            self.take_byte(rt, err, *b);
        }
    }

    // Answers a last line that has no line feed, and writes out what is left.
    fn finish(&mut self, rt: &impl Print, err: &impl Print) {
        if 0 < self.kept {
            self.end_line(rt, err);
        }
        self.flush(rt, err);
    }
}

// Answers the paths of a file whose first bytes are read.
fn answer_lines(
    rt: &impl Print,
    err: &impl Print,
    from: &mut impl Read,
    chunk: &mut [u8],
    first: usize,
    image: &[u8],
) -> io::Result<()> {
    let mut answers = Answers::new(image);
    let mut got = Ok(first);
    for _ in 0..u64::MAX {
        match got {
            Ok(n) if 0 < n && !answers.unread => {
                answers.take_bytes(rt, err, part(chunk, 0, n));
                got = read_some(from, chunk);
            }
            _ => break,
        }
    }
    answers.finish(rt, err);
    got?;
    Ok(())
}

// Reads the start of the paths, so that a file that can't be read is answered nothing.
fn answer_file(
    rt: &(impl Files + Print),
    err: &impl Print,
    name: &[u8],
    image: &[u8],
) -> io::Result<()> {
    let mut from = fs::open(rt, path_of(name)?)?;
    let mut chunk = [0u8; 4096];
    let first = read_some(&mut from, &mut chunk)?;
    answer_lines(rt, err, &mut from, &mut chunk, first, image)
}

fn answer_paths(rt: &(impl Files + Print), err: &impl Print, name: &[u8], image: &[u8]) {
    if let Err(e) = answer_file(rt, err, name, image) {
        fail(err, name, &e);
    }
}

fn run(rt: &(impl Files + Print), err: &impl Print, paths_name: &[u8], image_name: &[u8]) {
    let mut image = small_room();
    let n = read_whole(rt, err, image_name, &mut image);
    if n <= 65536 {
        answer_paths(rt, err, paths_name, part(&image, 0, n));
    }
}

fn main(rt: HostRuntime) {
    let err = rt.stderr();
    if !has_just(&rt, 2) {
        tell(&err, b"usage: rdap_paths PATHS IMAGE\n");
        return;
    }
    let mut paths = [0u8; MOST_NAME];
    let Some(p) = argument(&rt, &err, 1, b"PATHS", &mut paths) else {
        return;
    };
    let mut image = [0u8; MOST_NAME];
    let Some(i) = argument(&rt, &err, 2, b"IMAGE", &mut image) else {
        return;
    };
    run(&rt, &err, &paths[..p], &image[..i]);
}
