// The hall's step over lent bytes.
//
// Any lent bytes and any seven numbers: the refusals in their order around the act of the blocks that
// the step names, then the message, the head and the row. What it must answer and leave is defined in
// the crate hall, and what a step makes of its blocks is the acts' business.
#![tactic(auto)]

ghost use Rattle.std.specs.Prelude.{◌<◌, length, ◌≡◌};
ghost use Rattle.below.specs.Refusals.{number_of};
ghost use Rattle.blocks.specs.Frame.{block_size};
ghost use Rattle.acts.specs.Codes.{code_number};
ghost use Rattle.hall.specs.Halls.{blocks_of_hall, hall_size};
ghost use Rattle.hall.specs.Steps.{head_of, count_of, most_messages, fits, put_block, posted, Steps};
ghost use Rattle.hall_step.specs.Reached.{Reached};

use acts::{Code, Step, perform};
use below::Refusal;
use blocks::{BLOCK, put, read};
use hall::{HALL, MESSAGES_AT};
use records::{Head, Stamp};
use step_numbers::{message_place, narrow, numbers_in_range, rows_of, step_exists};

fn put_block(hall: &mut [u8], place: usize, block: &[u8])
    requires { (length hall.old ≡ hall_size) × ((place < blocks_of_hall) × (length block.now ≡ block_size)) }
    ensures { hall.new ≡ put_block place block.now hall.old }
{
    let at = place * BLOCK;
    let end = at + BLOCK;
    hall[at..end].copy_from_slice(block);
}

// Whether the post has room for what a step sends, if it sends.
fn fits(sends: bool, count: u16) -> bool
    ensures { result ≡ fits sends count }
{
    !sends || count < Head::MOST
}

// A message goes to the end of the post: its block, then the count in the head.
fn post(hall: &mut [u8], stamp: Stamp, count: u16, sent: &[u8])
    requires hall_len { (length hall.old ≡ hall_size) × (length sent.now ≡ block_size) }
    requires stamp_value { (stamp ≡ head_of hall.old) × (count ≡ count_of hall.old) }
    requires room { count < most_messages }
    ensures { hall.new ≡ posted sent.now hall.old }
{
    put_block(hall, MESSAGES_AT + usize::from(count), sent);
    let head = Head { count: count + 1 };
    put(&mut hall[0..BLOCK], stamp, head);
}

// There is such a step and its numbers are in range: the blocks that it names.
fn step_on_blocks(
    hall: &mut [u8],
    stamp: Stamp,
    count: u16,
    code: Code,
    step: Step,
) -> Result<(), Refusal>
    requires reached { Reached hall.old stamp count step }
    requires coded { code_number code ≡ step.code }
    ensures { Steps hall.old hall.new step (number_of result) }
{
    let rows = rows_of(stamp.setup, step.code);
    // Within the rows, so no cast here loses anything; `usize` has no From of 32 bits.
    let place = rows.first + step.agent as usize;
    let at = place * BLOCK;
    let end = at + BLOCK;
    let from = message_place(step.code, step.message) * BLOCK;
    let to = from + BLOCK;
    let own = Stamp {
        agent: step.agent as u8,
        ..stamp
    };
    let mut row = [0u8; BLOCK];
    let mut sent = [0u8; BLOCK];
    let sends = perform(
        code,
        narrow(step),
        own,
        Ok(()),
        &hall[at..end],
        &hall[from..to],
        &mut row,
        &mut sent,
    )?;
    Refusal::PostFull.unless(fits(sends, count))?;
    if sends {
        post(hall, stamp, count, &sent);
    }
    put_block(hall, place, &row);
    Ok(())
}

// Any lent bytes and any numbers: the first refusal that applies, and nothing changes; or the row, at
// most one new message and the head are written.
pub fn step(
    hall: &mut [u8],
    code: u32,
    agent: u32,
    message: u32,
    n: u32,
    c: u32,
    cf: u32,
    reading: u32,
) -> Result<(), Refusal>
    ensures { Steps hall.old hall.new (record { code = code; agent = agent; message = message; n = n; c = c; cf = cf; reading = reading }) (number_of result) }
{
    Refusal::WrongLength.unless(hall.len() == HALL)?;
    let head = read::<Head>(&hall[0..BLOCK])?;
    let stamp = head.stamp;
    let count = head.body.count;
    let step = Step {
        code,
        agent,
        message,
        n,
        c,
        cf,
        reading,
    };
    let code = Code::of(code).ok_or(Refusal::NoSuchStep)?;
    Refusal::NoSuchStep.unless(step_exists(stamp.setup, count, step))?;
    Refusal::OutOfRange.unless(numbers_in_range(stamp.setup, step))?;
    step_on_blocks(hall, stamp, count, code, step)
}
