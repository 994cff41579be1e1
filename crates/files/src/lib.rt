// What the programs do alike: arguments are taken, a file is read whole, output is written, and what is wrong is told on standard error.
// A name is any bytes as the program was given it. To open a file its name must be UTF-8 text.
#![tactic(auto)]

ghost use Rattle.std.specs.Prelude.{◌≡◌, ◌+◌, ◌≤◌, ◌<◌, IfOk, IfSome, length};
ghost use Rattle.registry.specs.Limits.{most_image};

use registry::{Defect, Flaw, MOST_COUNT, MOST_IMAGE};
use std::env::FillError;
use std::io::{Cursor, ErrorKind, Read, Write};
use std::rt::{Env, Files};
use std::{fs, io, str};

// What is wrong: parts of a line on standard error. Where that can't be written, nothing is left to be told.

pub fn tell(err: &impl Print, text: &[u8]) {
    let _ = Print::write_all(err, text);
}

pub fn tell_number(err: &impl Print, n: u64) {
    let _ = err.print(n);
}

// The handle or the name of a record, if it is not empty.
pub fn tell_name(err: &impl Print, name: &[u8]) {
    if name.len() == 0 {
        return;
    }
    tell(err, b" (");
    tell(err, name);
    tell(err, b")");
}

// A record: its number and, if it is not empty, its handle.
pub fn tell_record(err: &impl Print, number: u32, handle: &[u8]) {
    tell_number(err, u64::from(number));
    tell_name(err, handle);
}

fn tell_defect_number(err: &impl Print, defect: Defect) {
    tell(err, b"defect ");
    tell_number(err, u64::from(defect.number()));
}

fn tell_defect_words(err: &impl Print, flaw: Flaw) {
    match flaw.defect {
        Defect::TooLong => tell(err, b"it is longer than 262144 bytes"),
        Defect::BadStart => tell(err, b"it does not start with the bytes 01 00 01 01"),
        Defect::BadRecord => {
            if flaw.place < MOST_COUNT {
                tell(err, b"it is cut short or has an unknown tag");
            } else {
                tell(err, b"it comes after 4096 others");
            }
        }
        Defect::BadFields => tell(
            err,
            b"an inner field is missing, out of order or of a wrong length",
        ),
        Defect::BadContents => tell(
            err,
            b"what a field holds is not of its form, or first is above last",
        ),
        Defect::Unsorted => tell(err, b"it does not sort after the record before it"),
        Defect::Crossing => tell(err, b"it overlaps an earlier block without lying inside it"),
    }
}

// A defect, in number and words.
pub fn tell_defect(err: &impl Print, flaw: Flaw) {
    tell_defect_number(err, flaw.defect);
    tell(err, b": ");
    tell_defect_words(err, flaw);
}

// The defect of an image, and the record that has it, as the end of a line. A long image or a wrong start is of no record.
pub fn tell_defective(err: &impl Print, flaw: Flaw, handle: &[u8]) {
    tell_defect_number(err, flaw.defect);
    if !matches!(flaw.defect, Defect::TooLong | Defect::BadStart) {
        tell(err, b" in record ");
        tell_record(err, flaw.place, handle);
    }
    tell(err, b": ");
    tell_defect_words(err, flaw);
    tell(err, b"\n");
}

// What is wrong with an image file.
pub fn tell_image(err: &impl Print, name: &[u8], flaw: Flaw) {
    tell(err, name);
    tell(err, b": ");
    tell_defective(err, flaw, b"");
}

// The words of an error that is displayed: the system's errors have their number after the words.
fn words(shown: &str) -> &str {
    match shown.split_once(" (os error ") {
        Some((before, _)) => before,
        None => shown,
    }
}

// What failed and why, as a line.
pub fn fail(err: &impl Print, what: &[u8], why: &io::Error) {
    let mut room = Cursor::new([0u8; 128]);
    let _ = write!(room, "{why}");
    let end = room.position() as usize;
    let shown = room.into_inner();
    tell(err, what);
    tell(err, b": ");
    match str::from_utf8(part(&shown, 0, end)) {
        Ok(text) => tell(err, words(text).as_bytes()),
        Err(_) => tell(err, b"an error"),
    }
    tell(err, b"\n");
}

// Arguments.

// The most bytes that a name may have as an argument.
pub const MOST_NAME: usize = 4096;

// Whether there is an argument of this number; 0 is the program's own name.
pub fn has_argument(rt: &impl Env, i: usize) -> bool {
    let mut none = [0u8; 0];
    match rt.arg(i, &mut none) {
        Ok(_) => true,
        Err(FillError::TooLong) => true,
        Err(FillError::NotPresent) => false,
    }
}

// Whether the arguments after the program's own name are just so many.
pub fn has_just(rt: &impl Env, count: u8) -> bool {
    has_argument(rt, usize::from(count)) && !has_argument(rt, usize::from(count) + 1)
}

// The system's numbers for an argument that is missing, and for a name that is too long.
const INVALID: i32 = 22;

const NAME_TOO_LONG: i32 = 36;

// Puts an argument at the start of a room and gives its length. Where it does not fit, says so of the word that the usage has for it.
pub fn argument(
    rt: &impl Env,
    err: &impl Print,
    i: usize,
    called: &[u8],
    room: &mut [u8],
) -> Option<usize>
    ensures { IfSome result (λ n. n ≤ length room.new) }
{
    let number = match rt.arg(i, room) {
        Ok(n) => return Some(n),
        Err(FillError::TooLong) => NAME_TOO_LONG,
        Err(FillError::NotPresent) => INVALID,
    };
    fail(err, called, &io::Error::from_raw_os_error(number));
    None
}

// Files that are read.

// Room for an image file, with one byte more, so that a longer file is seen.
pub fn image_room() -> [u8; MOST_IMAGE + 1]
    ensures { most_image + 1 ≡ length result }
{
    [0; MOST_IMAGE + 1]
}

// The same for a file of at most 65,536 bytes.
pub fn small_room() -> [u8; 65537]
    ensures { 65537 ≡ length result }
{
    [0; 65537]
}

// A name as the path of a file.
pub fn path_of(name: &[u8]) -> io::Result<&str> {
    match str::from_utf8(name) {
        Ok(path) => Ok(path),
        Err(_) => Err(io::Error::from(ErrorKind::InvalidFilename)),
    }
}

// One read, again where a signal cut it short.
pub fn read_some(from: &mut impl Read, room: &mut [u8]) -> io::Result<usize>
    ensures { IfOk result (λ n. n ≤ length room.new) }
{
    for _ in 0..u64::MAX {
        match from.read(room) {
            Ok(n) => return Ok(n),
            Err(e) => {
                if e.kind() != ErrorKind::Interrupted {
                    return Err(e);
                }
            }
        }
    }
    Ok(0)
}

// Reads until the room is full, the input ends or a read fails. Gives how many bytes stand in the room, and how the reading ended.
pub fn read_full(from: &mut impl Read, room: &mut [u8]) -> (usize, io::Result<()>)
    ensures { result.0 ≤ length room.new }
{
    let mut done = 0;
    for _ in 0..u64::MAX {
        if done >= room.len() {
            break;
        }
        match read_some(from, &mut room[done..]) {
            Ok(0) => break,
            Ok(n) => done += n,
            Err(e) => return (done, Err(e)),
        }
    }
    (done, Ok(()))
}

// Asks once more for what stands after the end: a file that has grown meanwhile is refused.
fn ends(from: &mut impl Read) -> io::Result<()> {
    let mut more = [0u8; 1];
    let (n, ended) = read_full(from, &mut more);
    ended?;
    if n == 0 {
        return Ok(());
    }
    Err(io::Error::from_raw_os_error(0))
}

fn read_file(rt: &impl Files, name: &[u8], room: &mut [u8]) -> io::Result<usize> {
    let mut file = fs::open(rt, path_of(name)?)?;
    let (n, ended) = read_full(&mut file, room);
    ended?;
    if n < room.len() {
        ends(&mut file)?;
    }
    Ok(n)
}

// Reads a file whole into a room with one byte more than it may hold. Where that fails, says so and gives the length of the room.
pub fn read_whole(rt: &impl Files, err: &impl Print, name: &[u8], room: &mut [u8]) -> usize
    requires { 0 < length room.old }
{
    match read_file(rt, name, room) {
        Ok(n) => {
            if n < room.len() {
                return n;
            }
            tell(err, name);
            tell(err, b": longer than ");
            tell_number(err, (room.len() - 1) as u64);
            tell(err, b" bytes\n");
        }
        Err(e) => fail(err, name, &e),
    }
    room.len()
}

// The bytes from start up to end, as far as there are any.
pub fn part(s: &[u8], start: usize, end: usize) -> &[u8]
    ensures { (length result.now ≤ end) × (length result.now ≤ length s.now) }
{
    let until = end.min(s.len());
    let from = start.min(until);
    &s[from..until]
}

// Standard output.

// What kept the output from being written.
pub fn tell_unwritten(err: &impl Print, why: &io::Error) {
    fail(err, b"standard output", why);
}

// Writes the bytes to standard output. Where that fails, says so.
pub fn write_out(out: &impl Print, err: &impl Print, bytes: &[u8]) -> io::Result<()> {
    let done = Print::write_all(out, bytes);
    if let Err(e) = &done {
        tell_unwritten(err, e);
    }
    done
}
