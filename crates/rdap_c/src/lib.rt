// The library for C: each function writes its numbers to an array that the caller lends. include/rdap.h declares them.
#![tactic(auto)]

ghost use Rattle.std.specs.Prelude.{◌≡◌, length};
ghost use Rattle.image.specs.Entries.{span_of};
ghost use Rattle.answers.specs.Reply.{list_after, list_after_call};
ghost use Rattle.calls.specs.Calls.{answer_of, relation_of};
ghost use Rattle.batches.specs.Batch.{batch_of};
ghost use Rattle.prefixes.specs.Call.{ip_range_of, prefixed_of, buffer_after};
ghost use Rattle.changes.specs.Fold.{fold_of};
ghost use Rattle.final_image.specs.Call.{out_after};
ghost use Rattle.address_text.specs.Call.{written_of, text_after};
ghost use Rattle.c_numbers.specs.Numbers.{numbers_of, part_numbers, counted_numbers, folding_numbers};

use c_numbers::{counted_numbers, folding_numbers, numbers, span_numbers};
use registry::{Part, Relation};

// Answers a path from an image. Record numbers go to the first places of the list.
#[unsafe(no_mangle)]
pub extern "C" fn rdap_answer(path: &[u8], image: &[u8], list: &mut [u32], reply: &mut [u32; 7])
    ensures reply { reply.new ≡ numbers_of (answer_of path.now image.now (length list.old)) }
    ensures list { list.new ≡ list_after (answer_of path.now image.now (length list.old)) list.old }
{
    let a = rdap::answer(path, image, list);
    *reply = numbers(a);
}

// Answers paths, separated by a line feed, from an image. For each path the list gets status, reason, kind and count, then its record numbers.
#[unsafe(no_mangle)]
pub extern "C" fn rdap_batch(paths: &[u8], image: &[u8], list: &mut [u32], reply: &mut [u32; 7])
    ensures reply { reply.new ≡ numbers_of (batch_of paths.now image.now (length list.old)) }
    ensures list { list.new ≡ list_after (batch_of paths.now image.now (length list.old)) list.old }
{
    let a = rdap::batch(paths, image, list);
    *reply = numbers(a);
}

// Asks up of a record number.
#[unsafe(no_mangle)]
pub extern "C" fn rdap_up(image: &[u8], record_number: u32, list: &mut [u32], reply: &mut [u32; 7])
    ensures reply { reply.new ≡ numbers_of (relation_of image.now record_number Relation.Up (length list.old)) }
    ensures list { list.new ≡ list_after_call (relation_of image.now record_number Relation.Up) list.old }
{
    let a = rdap::relation(image, record_number, Relation::Up, list);
    *reply = numbers(a);
}

// Asks down of a record number.
#[unsafe(no_mangle)]
pub extern "C" fn rdap_down(
    image: &[u8],
    record_number: u32,
    list: &mut [u32],
    reply: &mut [u32; 7],
)
    ensures reply { reply.new ≡ numbers_of (relation_of image.now record_number Relation.Down (length list.old)) }
    ensures list { list.new ≡ list_after_call (relation_of image.now record_number Relation.Down) list.old }
{
    let a = rdap::relation(image, record_number, Relation::Down, list);
    *reply = numbers(a);
}

// Asks top of a record number.
#[unsafe(no_mangle)]
pub extern "C" fn rdap_top(image: &[u8], record_number: u32, list: &mut [u32], reply: &mut [u32; 7])
    ensures reply { reply.new ≡ numbers_of (relation_of image.now record_number Relation.Top (length list.old)) }
    ensures list { list.new ≡ list_after_call (relation_of image.now record_number Relation.Top) list.old }
{
    let a = rdap::relation(image, record_number, Relation::Top, list);
    *reply = numbers(a);
}

// Asks bottom of a record number.
#[unsafe(no_mangle)]
pub extern "C" fn rdap_bottom(
    image: &[u8],
    record_number: u32,
    list: &mut [u32],
    reply: &mut [u32; 7],
)
    ensures reply { reply.new ≡ numbers_of (relation_of image.now record_number Relation.Bottom (length list.old)) }
    ensures list { list.new ≡ list_after_call (relation_of image.now record_number Relation.Bottom) list.old }
{
    let a = rdap::relation(image, record_number, Relation::Bottom, list);
    *reply = numbers(a);
}

// Offset and length of a part of a record in the image.
fn part_numbers(image: &[u8], record_number: u32, which: Part) -> [u32; 2]
    ensures { result ≡ part_numbers (span_of image.now record_number which) }
{
    let span = entries::part_span(image, record_number, which);
    span_numbers(span)
}

// The handle of a record, as offset and length in the image; 0 and 0 if the image is defective or there is no such record.
#[unsafe(no_mangle)]
pub extern "C" fn rdap_handle(image: &[u8], record_number: u32, part: &mut [u32; 2])
    ensures { part.new ≡ part_numbers (span_of image.now record_number Part.Handle) }
{
    *part = part_numbers(image, record_number, Part::Handle);
}

// The name of a record, as offset and length in the image; 0 and 0 if the image is defective or there is no such record.
#[unsafe(no_mangle)]
pub extern "C" fn rdap_name(image: &[u8], record_number: u32, part: &mut [u32; 2])
    ensures { part.new ≡ part_numbers (span_of image.now record_number Part.Name) }
{
    *part = part_numbers(image, record_number, Part::Name);
}

// The range of a block, alike; 0 and 0 if the record is no block too.
#[unsafe(no_mangle)]
pub extern "C" fn rdap_range(image: &[u8], record_number: u32, part: &mut [u32; 2])
    ensures { part.new ≡ part_numbers (span_of image.now record_number Part.Range) }
{
    *part = part_numbers(image, record_number, Part::Range);
}

// The prefixes of a range of addresses, to the front of the buffer.
#[unsafe(no_mangle)]
pub extern "C" fn rdap_prefixes(range: &[u8], out: &mut [u8], reply: &mut [u32; 2])
    ensures reply { reply.new ≡ counted_numbers (prefixed_of (ip_range_of range.now) (length out.old)) }
    ensures out { out.new ≡ buffer_after (ip_range_of range.now) out.old }
{
    let a = rdap::prefixes(range, out);
    *reply = counted_numbers(a);
}

// A change file folded into an image, to the front of the buffer.
#[unsafe(no_mangle)]
pub extern "C" fn rdap_fold(image: &[u8], changes: &[u8], out: &mut [u8], reply: &mut [u32; 5])
    ensures reply { reply.new ≡ folding_numbers (fold_of image.now changes.now (length out.old)) }
    ensures out { out.new ≡ out_after (fold_of image.now changes.now (length out.old)) out.old }
{
    let a = rdap::fold(image, changes, out);
    *reply = folding_numbers(a);
}

// The text of an address, to the front of the buffer.
#[unsafe(no_mangle)]
pub extern "C" fn rdap_address_text(address: &[u8], text: &mut [u8], reply: &mut [u32; 2])
    ensures reply { reply.new ≡ counted_numbers (written_of address.now (length text.old)) }
    ensures text { text.new ≡ text_after address.now text.old }
{
    let a = rdap::address_text(address, text);
    *reply = counted_numbers(a);
}
