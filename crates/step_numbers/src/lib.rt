// A step's seven numbers, any at all: which rows its agent is of, whether there is such a step, and
// whether the numbers that it names are in range.
//
// The hall's step and the C step both look at them before they look at the blocks that the step names.
#![tactic(auto)]

ghost use Rattle.std.specs.Prelude.{◌+◌, cond, ◌&&◌, ◌≡◌};
ghost use Rattle.rounds.specs.Setups.{one_to, some_racks};
ghost use Rattle.rounds.specs.Rounds.{largest_number};
ghost use Rattle.acts.specs.Named.{names};
ghost use Rattle.hall.specs.Halls.{messages_at};
ghost use Rattle.hall.specs.Steps.{rows_at, agents_for, is_code, step_exists, numbers_in_range};
ghost use Rattle.step_numbers.specs.Narrowed.{narrowed};

use acts::{Numbers, Step};
use hall::{BOXES_AT, COORDINATORS_AT, MESSAGES_AT, RACKS_AT, READERS_AT};
use pages::Reading;
use rounds::{Number, Round, Setup, some_racks};

// A code is a number here, any at all, as C gives it; the step that it names is `acts::Code`.
const LAST_CODE: u32 = 13;

// Where the rows of the agents that do a step begin, and how many there are.
#[derive(Clone, Copy)]
pub struct Rows {
    pub first: usize,
    pub agents: u8,
}

// By ranges of codes, as document 01 has its ranges for rows.
pub fn rows_of(setup: Setup, code: u32) -> Rows
    ensures { (result.first ≡ rows_at code) × (result.agents ≡ agents_for setup code) }
{
    match code {
        1 | 6..=8 => Rows {
            first: RACKS_AT,
            agents: setup.racks,
        },
        2 | 4..=5 => Rows {
            first: COORDINATORS_AT,
            agents: setup.coordinators,
        },
        3 | 9..=10 => Rows {
            first: BOXES_AT,
            agents: setup.boxes,
        },
        _ => Rows {
            first: READERS_AT,
            agents: setup.readers,
        },
    }
}

pub fn is_code(code: u32) -> bool
    ensures { result ≡ is_code code }
{
    0 < code && code <= LAST_CODE
}

// Offer, start, open and learn name no message.
fn names(code: u32) -> bool
    ensures { result ≡ names code }
{
    !(code <= 2 || code == 5 || code == LAST_CODE)
}

// The block of the message that a step names; of a step that names none, any block of the post.
// `usize` has no From of 32 bits.
pub fn message_place(code: u32, message: u32) -> usize
    ensures { result ≡ cond (names code) (messages_at + message) messages_at }
{
    if names(code) {
        MESSAGES_AT + message as usize
    } else {
        MESSAGES_AT
    }
}

#[tactic(auto, unfolding(hall::specs::Steps::step_exists))]
pub fn step_exists(setup: Setup, count: u16, step: Step) -> bool
    ensures { result ≡ step_exists setup count step }
{
    is_code(step.code)
        && step.agent < u32::from(rows_of(setup, step.code).agents)
        && (!names(step.code) || step.message < u32::from(count))
}

fn start_in_range(setup: Setup, n: u32, cf: u32) -> bool
    ensures { result ≡ one_to largest_number n && some_racks setup.racks cf }
{
    0 < n && n <= u32::from(Number::LARGEST) && some_racks(u32::from(setup.racks), cf)
}

// By the code's number, since a code that no step has names no number.
#[tactic(auto, unfolding(hall::specs::Steps::numbers_in_range))]
pub fn numbers_in_range(setup: Setup, step: Step) -> bool
    ensures { result ≡ numbers_in_range setup step }
{
    match step.code {
        1 => Reading(step.reading).in_range(),
        2 => start_in_range(setup, step.n, step.cf),
        13 => Round::numbers_in_range(setup, step.n, step.c, step.cf),
        _ => true,
    }
}

// The numbers as an act takes them: those in range are kept, the others are never looked at, so they are
// cut and not tried.
pub fn narrow(step: Step) -> Numbers
    ensures { result ≡ narrowed step }
{
    Numbers {
        round: Round {
            n: Number((step.n % 65536) as u16),
            c: (step.c % 256) as u8,
            cf: (step.cf % 256) as u8,
        },
        reading: Reading(step.reading),
    }
}
