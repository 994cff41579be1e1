// The new file: it is made beside the old one, filled and renamed to it, so that who reads that name finds the old bytes or the new ones.
ghost use Rattle.std.specs.Prelude.{◌≡◌, ◌+◌, ◌≤◌, ◌<◌, length};
ghost use Rattle.registry.specs.Limits.{most_records};

use crate::known::Known;
use files::{fail, path_of};
use output::put_bytes;
use std::fs::{File, OpenOptions, Permissions};
use std::io::{ErrorKind, Write};
use std::os::unix::fs::{OpenOptionsExt, PermissionsExt, fchown};
use std::random::RandomSource;
use std::rt::Files;
use std::{fs, io};

// The name of the new file: OUTPUT and then a dot and six letters to be replaced.
fn put_name(output: &[u8], name: &mut [u8]) -> usize
    requires { (length output.now ≤ most_records) × (4103 ≤ length name.old) }
    ensures within { result ≤ length name.new }
    ensures letters { 6 ≤ result }
{
    let n = output.len();
    put_bytes(output, name);
    put_bytes(b".XXXXXX", &mut name[n..]);
    n + 7
}

fn letter(b: u8) -> u8 {
    b'a' + b % 26
}

// The number of a try as bytes, for a system that gives no random ones: no file is taken for another, since it must not have been there.
fn number_bytes(mut number: u32, bytes: &mut [u8]) {
    for b in bytes.iter_mut() {
        *b = (number % 26) as u8;
        number /= 26;
    }
}

// Replaces the last six bytes of the name by letters that nobody can foresee, where the system has such.
fn draw_letters(rt: &impl RandomSource, number: u32, name: &mut [u8])
    requires { 6 ≤ length name.old }
{
    let from = name.len() - 6;
    let last = &mut name[from..];
    if rt.fill_bytes(last).is_err() {
        number_bytes(number, last);
    }
    for b in last.iter_mut() {
        *b = letter(*b);
    }
}

// The system's number for a name that is taken, and how many names are tried before it is told.
const TAKEN: i32 = 17;

const TRIES: u32 = 238328;

// Makes a file that was not there before.
fn make_new<R: Files + RandomSource>(rt: &R, name: &mut [u8], mode: u32) -> io::Result<R::File>
    requires { 6 ≤ length name.old }
{
    let mut how = OpenOptions::new();
    how.write(true).create_new(true).mode(mode);
    for number in 0..TRIES {
        draw_letters(rt, number, name);
        match how.open(rt, path_of(name)?) {
            Ok(file) => return Ok(file),
            Err(e) => {
                if e.kind() != ErrorKind::AlreadyExists {
                    return Err(e);
                }
            }
        }
    }
    Err(io::Error::from_raw_os_error(TAKEN))
}

// If there is an old file, nobody else may read the new one until it has the permissions of that; else it is made as any file.
fn mode_of(old: Option<Known>) -> u32 {
    match old {
        Some(_) => 0o600,
        None => 0o666,
    }
}

// Gives the new file the permissions of the old one, and its owner and group as far as whoever runs this may.
fn hand_over(file: &File, old: Known) -> io::Result<()> {
    if fchown(file, Some(old.owner), Some(old.group)).is_err() {
        let _ = fchown(file, None, Some(old.group));
    }
    file.set_permissions(Permissions::from_mode(old.permissions))
}

// Fills the new file and closes it.
fn fill(mut file: File, bytes: &[u8], old: Option<Known>) -> io::Result<()> {
    file.write_all(bytes)?;
    if let Some(known) = old {
        hand_over(&file, known)?;
    }
    file.sync_all()
}

fn fill_and_rename(
    rt: &impl Files,
    file: File,
    bytes: &[u8],
    name: &[u8],
    output: &[u8],
    old: Option<Known>,
) -> io::Result<()> {
    fill(file, bytes, old)?;
    fs::rename(rt, path_of(name)?, path_of(output)?)
}

// Puts a new file in the place of OUTPUT. Where that fails, OUTPUT is as it was, and the new file is removed.
fn try_replace<R: Files<File = File> + RandomSource>(
    rt: &R,
    output: &[u8],
    bytes: &[u8],
    name: &mut [u8],
    old: Option<Known>,
) -> io::Result<()>
    requires { 6 ≤ length name.old }
{
    let file = make_new(rt, name, mode_of(old))?;
    let done = fill_and_rename(rt, file, bytes, name, output, old);
    if done.is_err() {
        let _ = fs::remove_file(rt, path_of(name)?);
    }
    done
}

// The same. Where that fails, says so.
pub fn put_in_place<R: Files<File = File> + RandomSource>(
    rt: &R,
    err: &impl Print,
    output: &[u8],
    bytes: &[u8],
    old: Option<Known>,
) -> bool
    requires { length output.now ≤ most_records }
{
    let mut name = [0u8; 4103];
    let n = put_name(output, &mut name);
    match try_replace(rt, output, bytes, &mut name[..n], old) {
        Ok(()) => true,
        Err(e) => {
            fail(err, output, &e);
            false
        }
    }
}
