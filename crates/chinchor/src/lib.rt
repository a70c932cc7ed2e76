// The C interface, declared and documented in include/chinchor.h: nothing but exported functions over
// the others. In C each lent buffer is a pointer, then its length, and an answer is document 01's number.
#![tactic(auto)]

ghost use Rattle.rounds.specs.Setups.{setup_of};
ghost use Rattle.hall.specs.Halls.{Sets};
ghost use Rattle.hall.specs.Steps.{Steps};
ghost use Rattle.box_step.specs.BoxSteps.{BoxSteps};
ghost use Rattle.chinchor.specs.Answers.{BooksInC};

use below::number_of;

// One step on three separate buffers: the row, the message read, the message sent.
#[unsafe(no_mangle)]
pub extern "C" fn chinchor_box_step(
    row: &mut [u8],
    message: &[u8],
    sent: &mut [u8],
    code: u32,
    agent: u32,
    number: u32,
    n: u32,
    c: u32,
    cf: u32,
    reading: u32,
) -> u32
    ensures { BoxSteps row.old message.now sent.old row.new sent.new (record { code = code; agent = agent; message = number; n = n; c = c; cf = cf; reading = reading }) result }
{
    let answer = box_step::step(row, message, sent, code, agent, number, n, c, cf, reading);
    number_of(answer)
}

// A hall is set up anew.
#[unsafe(no_mangle)]
pub extern "C" fn chinchor_hall_setup(
    hall: &mut [u8],
    instance: u32,
    racks: u32,
    boxes: u32,
    coordinators: u32,
    readers: u32,
    c0: u32,
    cf0: u32,
) -> u32
    ensures { Sets hall.old hall.new instance (setup_of racks boxes coordinators readers c0 cf0) result }
{
    let answer = hall::setup(hall, instance, racks, boxes, coordinators, readers, c0, cf0);
    number_of(answer)
}

// One step of a whole hall.
#[unsafe(no_mangle)]
pub extern "C" fn chinchor_hall_step(
    hall: &mut [u8],
    code: u32,
    agent: u32,
    number: u32,
    n: u32,
    c: u32,
    cf: u32,
    reading: u32,
) -> u32
    ensures { Steps hall.old hall.new (record { code = code; agent = agent; message = number; n = n; c = c; cf = cf; reading = reading }) result }
{
    let answer = hall_step::step(hall, code, agent, number, n, c, cf, reading);
    number_of(answer)
}

// The list of readings out of the blocks of one reader: the answer and 65,536 times the count.
#[unsafe(no_mangle)]
pub extern "C" fn chinchor_book(blocks: &[u8], list: &mut [u32]) -> u64
    ensures { BooksInC blocks.now list.old list.new result }
{
    match book::book(blocks, list) {
        Ok(count) => 65536 * u64::from(count),
        Err(refusal) => u64::from(refusal.number()),
    }
}
