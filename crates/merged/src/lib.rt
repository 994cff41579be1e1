// The records of an image and those that a change file adds, in the order of their keys.
#![tactic(auto)]

ghost use Rattle.std.specs.Prelude.{◌≡◌, ◌∷◌, ◌++◌, ◌+◌, ◌-◌, ◌*◌, ◌≤◌, ◌<◌, length, get_or, take, drop};
ghost use Rattle.registry.specs.Limits.{most_image, most_records};
ghost use Rattle.changes.specs.Limits.{most_entries};
ghost use Rattle.merged.specs.Held.{field_bytes, Recorded, Starting};

use changes::{MOST_ENTRIES, PerEntry};
use fields::step_at;
use registry::{IMAGE_END, PerRecord};

// The field that starts at a position; nothing where no whole field stands.
pub fn field_bytes(s: &[u8], at: usize) -> &[u8]
    ensures { result.now ≡ field_bytes s.now at }
{
    match step_at(s, at) {
        Some(field) => &s[at..field.end],
        None => &s[0..0],
    }
}

// The starts of the records of an image.
pub fn note_starts(starts: &PerRecord, count: usize, index: &mut PerEntry)
    requires { (count ≤ most_records) × (length starts.now ≡ most_records) × (length index.old ≡ most_entries) }
    ensures { Starting index.new count (take count starts.now) }
{
    index[..count].copy_from_slice(&starts[..count]);
}

// A start put into the index; those from there on move up. A loop, as below: of `copy_within` the compiler may make a call of memmove,
// and the archive for C is to need memcpy and memset alone.
pub fn insert_at(index: &mut PerEntry, n: usize, at: usize, start: u32)
    requires { (length index.old ≡ most_entries) × (n < most_entries) × (at ≤ n) }
    ensures { Starting index.new (n + 1) (take at index.old ++ start ∷ drop at (take n index.old)) }
{
    let mut i = n;
    while at < i {
        index[i] = index[i - 1];
        i -= 1;
    }
    index[i] = start;
}

// A start taken out of the index; those behind it move down.
pub fn remove_at(index: &mut PerEntry, n: usize, at: usize)
    requires { (length index.old ≡ most_entries) × (n ≤ most_entries) × (at < n) }
    ensures { Starting index.new (n - 1) (take at index.old ++ drop (at + 1) (take n index.old)) }
{
    let mut i = at + 1;
    while i < n {
        index[i - 1] = index[i];
        i += 1;
    }
}

// Each record by its start: a position of the image or, from 262,144 on, of the change file. The first `count` starts are those of the records.
#[derive(Drop)]
pub struct Records<'a> {
    pub image: &'a [u8],
    pub changes: &'a [u8],
    pub starts: PerEntry,
    pub count: usize,
    pub ghost few: { count ≤ most_entries },
}

impl<'a> Records<'a> {
    ghost use Rattle.image.specs.Index.{Indexed};
    ghost use Rattle.merged.specs.Listed.{starts_in, bytes_in, bytes_of_number, row_in, MergedIn, SameFiles};

    // The records of an image, by its index; the change file has added none yet.
    pub fn new(image: &'a [u8], changes: &'a [u8], starts: &PerRecord, count: usize) -> Records<'a>
        requires { count ≤ most_records }
        ensures starts { starts_in result ≡ take count starts.now }
        ensures files { (result.image ≡ image.entry) × (result.changes ≡ changes.entry) × (result.count ≡ count) }
        ensures merged { Indexed image.now count starts.now → MergedIn result }
    {
        let mut index = [0u32; MOST_ENTRIES];
        note_starts(starts, count, &mut index);
        Records {
            image,
            changes,
            starts: index,
            count,
        }
    }

    // The record that starts there.
    pub fn record_at(&self, start: u32) -> &'a [u8]
        ensures { result.now ≡ bytes_in self.now start }
    {
        if start < IMAGE_END {
            field_bytes(self.image, start as usize)
        } else {
            field_bytes(self.changes, (start - IMAGE_END) as usize)
        }
    }

    // The record with this number.
    pub fn record(&self, i: usize) -> &'a [u8]
        requires { (i < self.now.count) × MergedIn self.now }
        ensures is { result.now ≡ bytes_of_number self.now i }
        ensures whole { Recorded result.now }
    {
        self.record_at(self.starts[i])
    }

    // A record put in by its start; those from there on move up.
    pub fn insert(&mut self, at: usize, start: u32)
        requires { (self.old.count < most_entries) × (at ≤ self.old.count) }
        ensures starts { starts_in self.new ≡ take at self.old.starts ++ start ∷ drop at (starts_in self.old) }
        ensures count { self.new.count ≡ self.old.count + 1 }
        ensures full { length self.new.starts ≡ most_entries }
        ensures same { SameFiles self.old self.new }
    {
        insert_at(&mut self.starts, self.count, at, start);
        self.count += 1;
    }

    // A record taken out; those behind it move down.
    pub fn remove(&mut self, at: usize)
        requires { at < self.old.count }
        ensures starts { starts_in self.new ≡ take at self.old.starts ++ drop (at + 1) (starts_in self.old) }
        ensures count { self.new.count ≡ self.old.count - 1 }
        ensures full { length self.new.starts ≡ most_entries }
        ensures same { SameFiles self.old self.new }
    {
        remove_at(&mut self.starts, self.count, at);
        self.count -= 1;
    }

    // How many bytes the records have.
    pub fn size(&self) -> usize
        requires { (length self.now.image.now ≤ most_image) × (length self.now.changes.now ≤ most_image) }
        ensures is { result ≡ length (row_in self.now) }
        ensures bounded { result ≤ most_image * most_entries }
    {
        let mut size: usize = 0;
        for start in &self.starts[..self.count] {
            size += self.record_at(*start).len();
        }
        size
    }
}
