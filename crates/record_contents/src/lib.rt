// What defect 5 asks of a record: its texts, and of a block the status and the range.
#![tactic(auto)]

ghost use Rattle.std.specs.Prelude.{◌≡◌, ◌≤◌, length};
ghost use Rattle.std.proofs.Math.Seq.{slice};
ghost use Rattle.registry.specs.Tags.{as_block};
ghost use Rattle.records.specs.Record.{good_name, good_texts, good_block, good_contents};
ghost use Rattle.records.specs.Layout.{record_on, LaidOut, Lying};

use records::Layout;
use registry::{AS_BLOCK, DOMAIN, HEAD, IPV6_NETWORK, NAMESERVER};
use words::numbers_at_most;

fn name_ok(image: &[u8], tag: u8, start: usize, end: usize) -> bool
    requires { (start ≤ end) × (end ≤ length image.now) }
    ensures { result ≡ good_name tag (slice start end image.now) }
{
    if (DOMAIN <= tag) & (tag <= NAMESERVER) {
        return hosts::host_ok(&image[start..end]);
    }
    texts::name_ok(&image[start..end])
}

// Whether the handle, which starts at `from`, and the name, which ends at `to`, are as they should be.
fn texts_ok(image: &[u8], r: Layout, from: usize, to: usize) -> bool
    requires { Lying (length image.now) r from to }
    ensures { result ≡ good_texts (record_on image.now r) }
{
    texts::handle_ok(&image[from..r.middle]) && name_ok(image, r.tag, r.middle + HEAD, to)
}

// Whether the status of a block is 1 or 0, and its first address not above its last. The width is a constant in each call, for speed.
fn block_ok(image: &[u8], r: Layout) -> bool
    requires { LaidOut (length image.now) r × (r.tag ≤ as_block) }
    ensures { result ≡ good_block (record_on image.now r) }
{
    let status = r.end - 1;
    if 1 < image[status] {
        return false;
    }
    let start = r.start + HEAD;
    if r.tag == IPV6_NETWORK {
        return numbers_at_most(image, start, image, start + 16, 16);
    }
    numbers_at_most(image, start, image, start + 4, 4)
}

// Whether all that defect 5 asks of a record is as it should be.
pub fn contents_ok(image: &[u8], r: Layout, from: usize, to: usize) -> bool
    requires { Lying (length image.now) r from to }
    ensures { result ≡ good_contents (record_on image.now r) }
{
    (AS_BLOCK < r.tag || block_ok(image, r)) && texts_ok(image, r, from, to)
}
