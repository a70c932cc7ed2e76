// Lines and bytes, each a turn: the state after it, and its text at a place of the output. Hall, output
// and place are handed on apart: they are lent by the program, and the promises name each.
ghost use Rattle.std.specs.Prelude.{◌+◌, ◌≤◌, ◌<◌, length, ◌≡◌};
ghost use Rattle.lines.specs.Texts.{unreadable_text, answer_room, Put};
ghost use Rattle.rehearsing.specs.Rehearsals.{messages_in};
ghost use Rattle.rehearsing.specs.Turns.{beginning, setup_turn, step_turn, line_turn, Turned, Parted};

use crate::rehearsal::{Part, Played, Rehearsal, Stage};
use below::number_of;
use blocks::BLOCK;
use hall::HALL;
use hall_step::step;
use lines::{FIELDS, put_answer, put_unreadable};
use words::get_u16;

// Where the head's body has the message count.
const COUNT: usize = 10;

// The message count.
#[tactic(auto, unfolding(hall::specs::Halls::block_at))]
fn messages(hall: &[u8]) -> u32
    ensures { result ≡ messages_in hall.now }
{
    if hall.len() == HALL {
        u32::from(get_u16(&hall[0..BLOCK], COUNT))
    } else {
        0
    }
}

fn setup_line(hall: &mut [u8], n: [u32; FIELDS], out: &mut [u8], at: usize) -> Played
    requires { at + answer_room ≤ length out.old }
    ensures { Turned (setup_turn hall.old n) at hall.new out.old out.new result.rehearsal result.to }
{
    match hall::setup(hall, n[0], n[1], n[2], n[3], n[4], n[5], n[6]) {
        Ok(()) => {
            let to = put_answer(out, at, 0, messages(hall));
            let stage = Stage::Steps {
                readers: n[4],
                racks: n[1],
            };
            let rehearsal = Rehearsal::beginning(stage);
            Played { rehearsal, to }
        }
        Err(refusal) => {
            let to = put_answer(out, at, u32::from(refusal.number()), 0);
            let rehearsal = Rehearsal::beginning(Stage::Over);
            Played { rehearsal, to }
        }
    }
}

fn step_line(hall: &mut [u8], stage: Stage, n: [u32; FIELDS], out: &mut [u8], at: usize) -> Played
    requires { at + answer_room ≤ length out.old }
    ensures { Turned (step_turn stage hall.old n) at hall.new out.old out.new result.rehearsal result.to }
{
    let refusal = number_of(step(hall, n[0], n[1], n[2], n[3], n[4], n[5], n[6]));
    let to = put_answer(out, at, refusal, messages(hall));
    let rehearsal = Rehearsal::beginning(stage);
    Played { rehearsal, to }
}

fn unreadable(stage: Stage, out: &mut [u8], at: usize) -> Played
    requires { at + answer_room ≤ length out.old }
    ensures { (result.rehearsal ≡ beginning stage) × Put at unreadable_text out.old out.new result.to }
{
    let to = put_unreadable(out, at);
    let rehearsal = Rehearsal::beginning(stage);
    Played { rehearsal, to }
}

// A whole line: its seven numbers, if it has them.
#[tactic(auto, using(crate::proofs::Turning::put_nothing))]
pub(crate) fn line_turn(
    hall: &mut [u8],
    stage: Stage,
    read: Option<[u32; FIELDS]>,
    out: &mut [u8],
    at: usize,
) -> Played
    requires { at + answer_room ≤ length out.old }
    ensures { Turned (line_turn stage hall.old read) at hall.new out.old out.new result.rehearsal result.to }
{
    match (stage, read) {
        (Stage::Setup, Some(numbers)) => setup_line(hall, numbers, out, at),
        (Stage::Setup, None) => unreadable(Stage::Over, out, at),
        (Stage::Steps { .. }, Some(numbers)) => step_line(hall, stage, numbers, out, at),
        (Stage::Steps { .. }, None) => unreadable(stage, out, at),
        (Stage::Over, _) => Played {
            rehearsal: Rehearsal::beginning(Stage::Over),
            to: at,
        },
    }
}

// What is left of the open line in a piece of input, and its turn where it ends there.
pub(crate) fn part_turn(
    hall: &mut [u8],
    rehearsal: Rehearsal,
    input: &[u8],
    from: usize,
    out: &mut [u8],
    at: usize,
) -> Part
    requires { (from < length input.now) × (at + answer_room ≤ length out.old) }
    ensures { Parted rehearsal hall.old input.now from at hall.new out.old out.new result.rehearsal result.to result.from }
{
    let fed = rehearsal.scan.feed_on(input, from);
    if fed.to < input.len() {
        let played = line_turn(hall, rehearsal.stage, fed.scan.finish(), out, at);
        Part {
            rehearsal: played.rehearsal,
            to: played.to,
            from: fed.to + 1,
        }
    } else {
        let open = Rehearsal {
            scan: fed.scan,
            begun: true,
            ..rehearsal
        };
        Part {
            rehearsal: open,
            to: at,
            from: fed.to,
        }
    }
}
