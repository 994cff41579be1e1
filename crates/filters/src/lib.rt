// The filter of a network for a router (S12.7): its text is written to the start of a lent buffer.
#![tactic(auto)]

ghost use Rattle.std.specs.Prelude.{[], ◌≡◌, ◌+◌, ◌*◌, ◌≤◌, ◌<◌, length};
ghost use Rattle.octets.specs.Positions.{Wide};
ghost use Rattle.output.specs.Writing.{Written};
ghost use Rattle.formats.specs.Styles.{template_at};
ghost use Rattle.filters.specs.Filter.{text_in};
ghost use Rattle.filters.specs.Rows.{slashed, row_text};

use digits::{Base, put_number};
use formats::{
    Format, Style, put_before, put_end, put_foot, put_head, put_name, put_slash, style_of,
};
use output::put_bytes;

// Bytes that every filter fits into.
pub const ROOM: usize = 38973;

// A prefix: its address and its length.
fn put_prefix(style: Style, address: &[u8], bits: u8, out: &mut [u8]) -> usize
    requires { Wide (length address.now) × (length (slashed (template_at style []).slash address.now bits) ≤ length out.old) }
    ensures { Written (slashed (template_at style []).slash address.now bits) out.old out.new result }
{
    let mut at = ip_text::put_text(address, out);
    at += put_slash(style, &mut out[at..]);
    at + put_number(Base::Decimal, bits as u32, &mut out[at..])
}

// The row of a prefix after which so many are left.
fn put_row(
    style: Style,
    before: &[u8],
    address: &[u8],
    bits: u8,
    left: usize,
    out: &mut [u8],
) -> usize
    requires { Wide (length address.now) × (length (row_text style before.now address.now bits left) ≤ length out.old) }
    ensures { Written (row_text style before.now address.now bits left) out.old out.new result }
{
    let mut at = put_bytes(before, out);
    at += put_prefix(style, address, bits, &mut out[at..]);
    at + put_end(style, left, &mut out[at..])
}

// The prefixes of a network by entries, each an address of so many bytes and its length, and the style that they are written in.
#[derive(Drop)]
struct Listed<'a> {
    style: Style,
    width: usize,
    count: usize,
    entries: &'a [u8],
    ghost wide: { Wide width },
    ghost counted: { length entries.now ≡ count * (width + 1) },
}

impl<'a> Listed<'a> {
    ghost use Rattle.filters.specs.Listed.{rows_in, entries_text, BeforeFits};

    // A row for each entry. Left says what follows the row.
    fn put_rows(&self, before: &[u8], out: &mut [u8]) -> usize
        requires { length (rows_in self.now before.now) ≤ length out.old }
        ensures { Written (rows_in self.now before.now) out.old out.new result }
    {
        let mut at: usize = 0;
        let mut left = self.count;
        for entry in self.entries.chunks_exact(self.width + 1) {
            left -= 1;
            at += put_row(
                self.style,
                before,
                &entry[..self.width],
                entry[self.width],
                left,
                &mut out[at..],
            );
        }
        at
    }

    // Head, rows and foot.
    fn put_entries(&self, name: &[u8], out: &mut [u8]) -> usize
        requires { BeforeFits self.now.style name.now × (length (entries_text self.now name.now) ≤ length out.old) }
        ensures { Written (entries_text self.now name.now) out.old out.new result }
    {
        let mut before = [0u8; 89];
        let n = put_before(self.style, name, &mut before);
        let mut at = put_head(self.style, name, out);
        at += self.put_rows(&before[..n], &mut out[at..]);
        at + put_foot(self.style, &mut out[at..])
    }
}

// Writes the filter of a network with this handle and this range to the start of out, if that has room for every filter. Gives the number of
// bytes written.
pub fn put_filter(format: Format, handle: &[u8], range: &[u8], out: &mut [u8]) -> usize
    ensures { Written (text_in format handle.now range.now (length out.old)) out.old out.new result }
{
    if out.len() < ROOM {
        return 0;
    }
    if 64 < handle.len() {
        return 0;
    }
    let mut entries = [0u8; 4318];
    let Ok(count) = prefixes::prefixes(range, &mut entries) else {
        return 0;
    };
    let mut name = [0u8; 64];
    let n = put_name(format, handle, &mut name);
    let width = range.len() / 2;
    let count = count as usize;
    let listed = Listed {
        style: style_of(format, width),
        width,
        count,
        entries: &entries[..count * (width + 1)],
    };
    listed.put_entries(&name[..n], out)
}
