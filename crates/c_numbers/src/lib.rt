// The numbers that the functions for C write: of an answer, of a part of the image, of what was written to a buffer, of a fold.
#![tactic(auto)]

ghost use Rattle.std.specs.Prelude.{◌≡◌, [], ◌≤◌};
ghost use Rattle.registry.specs.Limits.{most_image};
ghost use Rattle.changes.specs.Fold.{Folding};
ghost use Rattle.final_image.specs.Call.{folded_of, folded_in};
ghost use Rattle.answers.specs.Answered.{reply_of};
ghost use Rattle.c_numbers.specs.Numbers.{numbers_of, part_numbers, counted_numbers, folding_numbers};

use answers::Answer;
use final_image::FoldError;
use output::WriteError;
use records::Span;

// The reasons of a call that writes to a lent buffer (S3.2).
const REASON_NONE: u32 = 0;

const REASON_IMAGE: u32 = 2;

const REASON_MALFORMED: u32 = 6;

const REASON_NO_ROOM: u32 = 9;

const REASON_CHANGE: u32 = 11;

const REASON_FINAL_IMAGE: u32 = 12;

// The numbers of an answer.
pub fn numbers(a: Answer) -> [u32; 7]
    ensures { result ≡ numbers_of (reply_of a []) }
{
    let Answer {
        reason,
        kind,
        count,
        defect,
        place,
    } = a;
    let status = reason.status();
    let reason = reason.number();
    let relation = kinds::relation_number(kind);
    let kind = kinds::kind_number(kind);
    [status, reason, kind, relation, count, defect, place]
}

// Offset and length of a part of an image.
pub fn span_numbers(span: Span) -> [u32; 2]
    requires { (span.start ≤ span.end) × (span.end ≤ most_image) }
    ensures { result ≡ part_numbers span }
{
    let start = span.start;
    let end = span.end;
    let length = end - start;
    [start as u32, length as u32]
}

// The two numbers of a call that writes to a buffer.
pub fn counted_numbers(written: Result<u32, WriteError>) -> [u32; 2]
    ensures { result ≡ counted_numbers written }
{
    match written {
        Ok(count) => [REASON_NONE, count],
        Err(WriteError::Malformed) => [REASON_MALFORMED, 0],
        Err(WriteError::NoRoom(needed)) => [REASON_NO_ROOM, needed],
    }
}

// The five numbers of a fold.
pub fn folding_numbers(folded: Result<u32, FoldError>) -> [u32; 5]
    ensures { (f : Folding) → folded_in folded ≡ folded_of f → result ≡ folding_numbers f }
{
    match folded {
        Ok(count) => [REASON_NONE, count, 0, 0, 0],
        Err(FoldError::Image(flaw)) => [REASON_IMAGE, 0, flaw.defect.number(), flaw.place, 0],
        Err(FoldError::NoRoom(needed)) => [REASON_NO_ROOM, needed, 0, 0, 0],
        Err(FoldError::Change(offset)) => [REASON_CHANGE, 0, 0, 0, offset],
        Err(FoldError::Final(flaw)) => [REASON_FINAL_IMAGE, 0, flaw.defect.number(), flaw.place, 0],
    }
}
