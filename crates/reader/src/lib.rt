// The reader, which walks fields. It never passes the end of the slice that it is given.
#![tactic(auto)]

ghost use Rattle.std.specs.Prelude.{◌≡◌, length};
ghost use Rattle.fields.specs.Positions.{field_at, field_after, end_between};

use fields::{Field, step_after, step_to};

#[derive(Clone, Copy)]
pub struct Reader<'a> {
    pub image: &'a [u8],
    pub at: usize,
}

impl<'a> Reader<'a> {
    pub fn new(image: &'a [u8], at: usize) -> Reader<'a>
        ensures { (result.image ≡ image.entry) × (result.at ≡ at) }
    {
        Reader { image, at }
    }

    // The field n fields on from where the reader stands, if there is one.
    pub fn after(self, n: u32) -> Option<Field>
        ensures { result ≡ field_after self.entry.image.now n self.entry.at (length self.entry.image.now) }
    {
        step_after(self.image, self.at, n)
    }

    // Where the field at which the reader stands ends, if it has the tag and from low to high bytes.
    pub fn to(self, tag: u8, low: u8, high: u8) -> Option<usize>
        ensures { result ≡ end_between low high tag (field_at self.entry.image.now self.entry.at (length self.entry.image.now)) }
    {
        step_to(self.image, self.at, tag, low, high)
    }
}

// The field n fields on from a position, if there is one: a caller needs no reader.
pub fn field_after(image: &[u8], at: usize, n: u32) -> Option<Field>
    ensures { result ≡ field_after image.now n at (length image.now) }
{
    Reader::new(image, at).after(n)
}

// The field at a position, if a whole one stands there.
pub fn read(image: &[u8], at: usize) -> Option<Field>
    ensures { result ≡ field_at image.now at (length image.now) }
{
    field_after(image, at, 0)
}

// Where the field at a position ends, if it has the tag and from low to high bytes.
pub fn read_to(image: &[u8], at: usize, tag: u8, low: u8, high: u8) -> Option<usize>
    ensures { result ≡ end_between low high tag (field_at image.now at (length image.now)) }
{
    Reader::new(image, at).to(tag, low, high)
}
