// Folds a file of changes into an image file.
//
// rdap_fold IMAGE CHANGES OUTPUT
//
// The final image goes to a new file beside OUTPUT, which is then renamed to OUTPUT: who reads OUTPUT finds the old image or the new one.
// Its number of bytes goes to standard output. IMAGE has at most 262,144 bytes, CHANGES at most 65,536.
#![tactic(auto)]

mod beside;
mod known;

ghost use Rattle.std.specs.Prelude.{◌≤◌, ◌<◌, length};
ghost use Rattle.registry.specs.Limits.{most_records};
ghost use Rattle.changes.specs.Limits.{most_changes};

use changes::MOST_CHANGES;
use entries::contents_span;
use fields::step_at;
use files::{
    MOST_NAME, argument, has_just, image_room, part, read_whole, small_room, tell, tell_defect,
    tell_defective, tell_image, tell_name, tell_number, tell_unwritten,
};
use final_image::FoldError;
use final_list::final_record;
use image::index_from;
use known::Known;
use registry::{AS_BLOCK, ENTITY, IPV4_NETWORK, MOST_IMAGE, MOST_RECORDS, Part};
use std::fs::File;
use std::random::RandomSource;
use std::rt::Files;

// What is wrong, on standard error.

// The handle of a record; empty if there is none.
fn handle_in(r: &[u8]) -> &[u8] {
    let span = contents_span(r, 0, Part::Handle);
    part(r, span.start, span.end)
}

// What is wrong with a change that holds r as the record to add.
fn tell_addition(err: &impl Print, r: &[u8])
    requires { length r.now ≤ most_changes }
{
    let mut starts = [0u32; MOST_RECORDS];
    match index_from(r, 0, &mut starts) {
        Ok(count) => {
            if count == 0 {
                tell(err, b"it holds no record");
            } else if count == 1 {
                tell(err, b"it adds a record whose key is already there");
                tell_name(err, handle_in(r));
            } else {
                tell(err, b"bytes follow its record");
            }
        }
        Err(flaw) => {
            if flaw.place == 0 {
                tell(err, b"its record has ");
                tell_defect(err, flaw);
            } else {
                tell(err, b"bytes follow its record");
            }
        }
    }
}

fn has_record_tag(r: &[u8]) -> bool {
    if r.len() == 0 {
        return false;
    }
    if r[0] < IPV4_NETWORK {
        return false;
    }
    r[0] <= ENTITY
}

// The name or the handle that a removal gives. A range is not text.
fn tell_key(err: &impl Print, r: &[u8]) {
    if r.len() == 0 {
        return;
    }
    if r[0] <= AS_BLOCK {
        return;
    }
    tell_name(err, &r[1..]);
}

// What is wrong with a change that holds r as the record to remove.
fn tell_removal(err: &impl Print, r: &[u8]) {
    if one_change::good_removal(r) {
        tell(err, b"it removes a record that is not there");
        tell_key(err, r);
    } else if has_record_tag(r) {
        tell(err, b"its key is not of the form of the record's tag");
    } else {
        tell(err, b"its key has no record tag");
    }
}

// What is wrong with the change at an offset.
fn tell_change(err: &impl Print, changes: &[u8], at: usize)
    requires { length changes.now ≤ most_changes }
{
    let Some(field) = step_at(changes, at) else {
        tell(err, b"it is cut short");
        return;
    };
    let r = part(changes, field.start, field.end);
    if field.tag == 0x30 {
        tell_addition(err, r);
    } else if field.tag == 0x31 {
        tell_removal(err, r);
    } else {
        tell(err, b"its tag is neither 30 nor 31");
    }
}

// How many changes there are before an offset. From change to change, so that no range counts the turns.
fn number_at(changes: &[u8], offset: usize) -> usize {
    let mut n: usize = 0;
    let mut at: usize = 0;
    while at < offset {
        let Some(field) = step_at(changes, at) else {
            return n;
        };
        at = field.end;
        n += 1;
    }
    n
}

fn tell_refused(err: &impl Print, changes: &[u8], at: usize)
    requires { length changes.now ≤ most_changes }
{
    tell(err, b"change ");
    tell_number(err, number_at(changes, at) as u64);
    tell(err, b" at byte ");
    tell_number(err, at as u64);
    tell(err, b": ");
    tell_change(err, changes, at);
    tell(err, b"\n");
}

// The file that is at fault.
fn tell_file(err: &impl Print, name: &[u8]) {
    tell(err, name);
    tell(err, b": ");
}

// Why nothing was written.
fn tell_refusal(
    err: &impl Print,
    error: FoldError,
    image: &[u8],
    changes: &[u8],
    image_name: &[u8],
    changes_name: &[u8],
)
    requires { length changes.now ≤ most_changes }
{
    match error {
        FoldError::Image(flaw) => tell_image(err, image_name, flaw),
        FoldError::Change(offset) => {
            tell_file(err, changes_name);
            tell_refused(err, changes, offset as usize);
        }
        FoldError::Final(flaw) => {
            tell_file(err, changes_name);
            tell(err, b"the result would have ");
            let last = final_record(image, changes, flaw.place as usize);
            tell_defective(err, flaw, handle_in(last));
        }
        // The buffer has room for any image.
        FoldError::NoRoom(_) => {}
    }
}

// Whether OUTPUT is a file to replace, or is not there. A folder or a device is not replaced.
fn may_replace(old: Option<Known>) -> bool {
    match old {
        Some(file) => file.is_regular,
        None => true,
    }
}

// Puts the bytes in the place of OUTPUT.
fn save<R: Files<File = File> + RandomSource>(
    rt: &R,
    err: &impl Print,
    output: &[u8],
    bytes: &[u8],
) -> bool
    requires { length output.now ≤ most_records }
{
    let old = known::of_file(rt, output);
    if !may_replace(old) {
        tell(err, output);
        tell(err, b": not a regular file\n");
        return false;
    }
    beside::put_in_place(rt, err, output, bytes, old)
}

// The number of bytes, on standard output.
fn write_number(rt: &impl Print, err: &impl Print, n: usize) {
    if let Err(e) = println!(rt; "{n}") {
        tell_unwritten(err, &e);
    }
}

fn fold_into<R: Files<File = File> + RandomSource + Print>(
    rt: &R,
    err: &impl Print,
    image: &[u8],
    changes: &[u8],
    image_name: &[u8],
    changes_name: &[u8],
    output: &[u8],
)
    requires { (length changes.now ≤ most_changes) × (length output.now ≤ most_records) }
{
    let mut room = image_room();
    match rdap::fold(image, changes, &mut room) {
        Ok(count) => {
            let n = count as usize;
            if save(rt, err, output, part(&room, 0, n)) {
                write_number(rt, err, n);
            }
        }
        Err(error) => tell_refusal(err, error, image, changes, image_name, changes_name),
    }
}

fn fold_with<R: Files<File = File> + RandomSource + Print>(
    rt: &R,
    err: &impl Print,
    image: &[u8],
    image_name: &[u8],
    changes_name: &[u8],
    output: &[u8],
)
    requires { length output.now ≤ most_records }
{
    let mut changes = small_room();
    let n = read_whole(rt, err, changes_name, &mut changes);
    if n <= MOST_CHANGES {
        fold_into(
            rt,
            err,
            image,
            part(&changes, 0, n),
            image_name,
            changes_name,
            output,
        );
    }
}

fn run<R: Files<File = File> + RandomSource + Print>(
    rt: &R,
    err: &impl Print,
    image_name: &[u8],
    changes_name: &[u8],
    output: &[u8],
)
    requires { length output.now ≤ most_records }
{
    let mut image = image_room();
    let n = read_whole(rt, err, image_name, &mut image);
    if n <= MOST_IMAGE {
        fold_with(
            rt,
            err,
            part(&image, 0, n),
            image_name,
            changes_name,
            output,
        );
    }
}

fn main(rt: HostRuntime) {
    let err = rt.stderr();
    if !has_just(&rt, 3) {
        tell(&err, b"usage: rdap_fold IMAGE CHANGES OUTPUT\n");
        return;
    }
    let mut image = [0u8; MOST_NAME];
    let Some(i) = argument(&rt, &err, 1, b"IMAGE", &mut image) else {
        return;
    };
    let mut changes = [0u8; MOST_NAME];
    let Some(c) = argument(&rt, &err, 2, b"CHANGES", &mut changes) else {
        return;
    };
    let mut output = [0u8; MOST_NAME];
    let Some(o) = argument(&rt, &err, 3, b"OUTPUT", &mut output) else {
        return;
    };
    run(&rt, &err, &image[..i], &changes[..c], &output[..o]);
}
