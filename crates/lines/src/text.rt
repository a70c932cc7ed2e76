// Lines of output, written at a place of lent bytes. The bytes and the place are handed on apart: each
// function's promise speaks of both, and a struct of them would be taken apart at every call.
ghost use Rattle.std.specs.Prelude.{◌≡◌, ◌+◌, ◌≤◌, leb, length};
ghost use Rattle.lines.specs.Texts.{decimal, field_text, answer_text, unreadable_text, mark_text, page_line_text, answer_room, page_line_room, Put, PutIn};

use pages::{Line, Mark};

// The most bytes that an answer, or a line of a page, takes.
pub const ANSWER_ROOM: usize = 22;

pub const PAGE_LINE_ROOM: usize = 35;

// The text at its place; the answer is the place behind it.
fn put(out: &mut [u8], at: usize, text: &[u8]) -> usize
    requires { at + length text.now ≤ length out.old }
    ensures { Put at text.now out.old out.new result }
{
    let end = at + text.len();
    out[at..end].copy_from_slice(text);
    end
}

#[tactic(auto, using(crate::proofs::Writing::length_small, crate::proofs::Writing::length_more, crate::proofs::Writing::put_small, crate::proofs::Writing::put_more))]
// By hand: it is promised what stands at a place of lent bytes, and there is no heap for a text.
fn put_decimal(out: &mut [u8], at: usize, n: u32) -> usize
    requires { at + length (decimal n) ≤ length out.old }
    ensures { Put at (decimal n) out.old out.new result }
{
    if n < 10 {
        return put(out, at, &[b'0' + n as u8]);
    }
    let last = put_decimal(out, at, n / 10);
    put(out, last, &[b'0' + (n % 10) as u8])
}

#[tactic(auto, using(crate::proofs::Writing::decimal_short))]
fn put_field(out: &mut [u8], at: usize, n: u32) -> usize
    requires { at + 11 ≤ length out.old }
    ensures { Put at (field_text n) out.old out.new result }
{
    let next = put_decimal(out, at, n);
    put(out, next, b" ")
}

#[tactic(auto, using(crate::proofs::Writing::decimal_short))]
fn put_mark(out: &mut [u8], at: usize, mark: Mark) -> usize
    requires { at + 10 ≤ length out.old }
    ensures { Put at (mark_text mark) out.old out.new result }
{
    match mark {
        Mark::Absent => put(out, at, b"-"),
        Mark::Nil => put(out, at, b"nil"),
        Mark::Reading(reading) => put_decimal(out, at, reading.0),
    }
}

#[tactic(auto, using(crate::proofs::Writing::field_short, crate::proofs::Writing::decimal_short))]
fn answer(out: &mut [u8], at: usize, refusal: u32, count: u32) -> usize
    requires { at + answer_room ≤ length out.old }
    ensures { Put at (answer_text refusal count) out.old out.new result }
{
    let second = put_field(out, at, refusal);
    let end = put_decimal(out, second, count);
    put(out, end, b"\n")
}

#[tactic(auto, using(crate::proofs::Writing::field_short, crate::proofs::Writing::mark_short))]
fn page_line(out: &mut [u8], at: usize, reader: u32, rack: u32, mark: Mark) -> usize
    requires { at + page_line_room ≤ length out.old }
    ensures { Put at (page_line_text reader rack mark) out.old out.new result }
{
    let second = put(out, at, b"L ");
    let third = put_field(out, second, reader);
    let fourth = put_field(out, third, rack);
    let end = put_mark(out, fourth, mark);
    put(out, end, b"\n")
}

// Whether so many bytes are free at a place.
fn has_room(length: usize, at: usize, room: usize) -> bool
    ensures { result ≡ leb (at + room) length }
{
    at <= length && room <= length - at
}

// The refusal number and the message count. The answer is the place behind it; where the room is
// short, nothing is written and the place stays, here and below.
pub fn put_answer(out: &mut [u8], at: usize, refusal: u32, count: u32) -> usize
    ensures { PutIn answer_room at (answer_text refusal count) out.old out.new result }
{
    if has_room(out.len(), at, ANSWER_ROOM) {
        answer(out, at, refusal, count)
    } else {
        at
    }
}

// The answer to a line that is not seven decimals.
pub fn put_unreadable(out: &mut [u8], at: usize) -> usize
    ensures { PutIn answer_room at unreadable_text out.old out.new result }
{
    if has_room(out.len(), at, ANSWER_ROOM) {
        put(out, at, b"?\n")
    } else {
        at
    }
}

// A reader's line of a rack, as a page shows it.
pub fn put_page_line(out: &mut [u8], at: usize, reader: u32, rack: u32, line: Line) -> usize
    ensures { PutIn page_line_room at (page_line_text reader rack line.mark) out.old out.new result }
{
    if has_room(out.len(), at, PAGE_LINE_ROOM) {
        page_line(out, at, reader, rack, line.mark)
    } else {
        at
    }
}
