// The rehearsal's two public functions: a piece of input, and its end.
ghost use Rattle.std.specs.Prelude.{◌*◌, ◌/◌, ◌≤◌, leb, length};
ghost use Rattle.lines.specs.Texts.{answer_room};
ghost use Rattle.rehearsing.specs.Turns.{last_turn, play_of, end_of, end_room, Turned, TurnedIn};

use crate::pages_out::stage_pages;
use crate::rehearsal::{Part, Played, Rehearsal};
use crate::turns::{line_turn, part_turn};
use lines::ANSWER_ROOM;

// The most bytes that the end of a rehearsal prints: one answer, and a line for each of 4 readers
// and 8 racks.
pub const END_ROOM: usize = 1142;

fn play_all(hall: &mut [u8], rehearsal: Rehearsal, input: &[u8], out: &mut [u8]) -> Played
    requires { answer_room * length input.now ≤ length out.old }
    ensures { Turned (play_of rehearsal hall.old input.now) 0 hall.new out.old out.new result.rehearsal result.to }
{
    let mut part = Part {
        rehearsal,
        to: 0,
        from: 0,
    };
    // A turn takes as many bytes as its line has, so the place moves by parts and no `for` counts it.
    while part.from < input.len() {
        part = part_turn(hall, part.rehearsal, input, part.from, out, part.to);
    }
    Played {
        rehearsal: part.rehearsal,
        to: part.to,
    }
}

// A piece of the input, of any length: its text goes to the front of the output, which has room for
// an answer to every byte. Where it has not, nothing is done.
#[tactic(auto, using(crate::proofs::InParts::turned_none))]
pub fn play(hall: &mut [u8], rehearsal: Rehearsal, input: &[u8], out: &mut [u8]) -> Played
    ensures { TurnedIn (leb (length input.now) (length out.old / answer_room)) rehearsal hall.old (play_of rehearsal hall.old input.now) hall.new out.old out.new result.rehearsal result.to }
{
    if input.len() <= out.len() / ANSWER_ROOM {
        play_all(hall, rehearsal, input, out)
    } else {
        Played { rehearsal, to: 0 }
    }
}

#[tactic(auto, using(crate::proofs::InParts::last_line, crate::proofs::InParts::no_last_line))]
fn last_turn(hall: &mut [u8], rehearsal: Rehearsal, out: &mut [u8]) -> Played
    requires { answer_room ≤ length out.old }
    ensures { Turned (last_turn rehearsal hall.old) 0 hall.new out.old out.new result.rehearsal result.to }
{
    if rehearsal.begun {
        let read = rehearsal.scan.finish();
        line_turn(hall, rehearsal.stage, read, out, 0)
    } else {
        Played { rehearsal, to: 0 }
    }
}

fn end_all(hall: &mut [u8], rehearsal: Rehearsal, out: &mut [u8]) -> Played
    requires { end_room ≤ length out.old }
    ensures { Turned (end_of rehearsal hall.old) 0 hall.new out.old out.new result.rehearsal result.to }
{
    let last = last_turn(hall, rehearsal, out);
    let to = stage_pages(hall, last.rehearsal.stage, out, last.to);
    Played { to, ..last }
}

// The end of the input: a last line that lacks its LF, then the pages. Where the output is shorter
// than END_ROOM, nothing is done.
#[tactic(auto, using(crate::proofs::InParts::turned_none))]
pub fn end(hall: &mut [u8], rehearsal: Rehearsal, out: &mut [u8]) -> Played
    ensures { TurnedIn (leb end_room (length out.old)) rehearsal hall.old (end_of rehearsal hall.old) hall.new out.old out.new result.rehearsal result.to }
{
    if END_ROOM <= out.len() {
        end_all(hall, rehearsal, out)
    } else {
        Played { rehearsal, to: 0 }
    }
}
