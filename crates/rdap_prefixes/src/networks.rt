// The networks of a sound image, and what is listed of each.
ghost use Rattle.std.specs.Prelude.{◌≤◌, length};

use entries::{SoundImage, contents_span};
use files::part;
use formats::{Format, put_name};
use registry::Part;

// The image, how the lists of its networks are written, and whether those of networks that are not active are written too.
#[derive(Clone, Copy)]
pub struct Networks<'a> {
    pub image: SoundImage<'a>,
    pub format: Format,
    pub all: bool,
}

impl<'a> Networks<'a> {
    fn start_of(self, number: u32) -> usize {
        let starts = self.image.starts;
        match starts.get(number as usize) {
            Some(start) => *start as usize,
            None => 0,
        }
    }

    // The range or the handle of a network, which have at most 64 bytes.
    pub fn part(self, number: u32, which: Part) -> &'a [u8]
        ensures { length result.now ≤ 64 }
    {
        let bytes = self.image.bytes;
        let span = contents_span(bytes, self.start_of(number), which);
        part(part(bytes, span.start, span.end), 0, 64)
    }

    // Whether a network is listed: all of them are, or its last byte, field 23, is 1.
    pub fn is_listed(self, number: u32) -> bool {
        if self.all {
            return true;
        }
        let bytes = self.image.bytes;
        match reader::read(bytes, self.start_of(number)) {
            Some(field) => part(bytes, field.start, field.end).last() == Some(&1),
            None => false,
        }
    }

    // The name of a network's list.
    pub fn put_name(self, number: u32, name: &mut [u8]) -> usize
        requires { 64 ≤ length name.old }
    {
        put_name(self.format, self.part(number, Part::Handle), name)
    }
}
