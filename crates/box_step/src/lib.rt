// The step that firmware calls: on one row and one message, each in a buffer of its own.
//
// It takes any lent bytes and any seven numbers, of which agent and message number are ignored: the
// agent is the row's own. Its order of refusals differs from the hall's (specs/BoxSteps.antt); what the
// step makes of the two blocks is the same act. On a refusal not one byte changes.
#![tactic(auto)]

ghost use Rattle.std.specs.Prelude.{length, cond, ◌≡◌};
ghost use Rattle.below.specs.Refusals.{number_of};
ghost use Rattle.words.specs.Bytes.{zeros};
ghost use Rattle.blocks.specs.Frame.{block_size};
ghost use Rattle.box_step.specs.BoxSteps.{BoxSteps};

use acts::{Code, Step, perform};
use below::Refusal;
use blocks::{BLOCK, read_stamp};
use step_numbers::{narrow, numbers_in_range};

// The message sent is all zero where none is sent.
fn clear_unless(sends: bool, sent: &mut [u8])
    requires { length sent.old ≡ block_size }
    ensures { sent.new ≡ cond sends sent.old (zeros block_size) }
{
    if !sends {
        sent.fill(0);
    }
}

// The seven numbers come one by one, as C gives them.
#[tactic(auto, using(step_numbers::proofs::Codes::code_none), unfolding(crate::specs::BoxSteps::box_refusal, crate::specs::BoxSteps::box_row_after, crate::specs::BoxSteps::box_sent_after))]
pub fn step(
    row: &mut [u8],
    message: &[u8],
    sent: &mut [u8],
    code: u32,
    agent: u32,
    number: u32,
    n: u32,
    c: u32,
    cf: u32,
    reading: u32,
) -> Result<(), Refusal>
    ensures { BoxSteps row.old message.now sent.old row.new sent.new (record { code = code; agent = agent; message = number; n = n; c = c; cf = cf; reading = reading }) (number_of result) }
{
    let blocks = row.len() == BLOCK && message.len() == BLOCK && sent.len() == BLOCK;
    Refusal::WrongLength.unless(blocks)?;
    let step = Step {
        code,
        agent,
        message: number,
        n,
        c,
        cf,
        reading,
    };
    let code = Code::of(code).ok_or(Refusal::NoSuchStep)?;
    let own = read_stamp(row);
    let late = Refusal::OutOfRange.unless(numbers_in_range(own.setup, step));
    let mut after = [0u8; BLOCK];
    let sends = perform(
        code,
        narrow(step),
        own,
        late,
        row,
        message,
        &mut after,
        sent,
    )?;
    row.copy_from_slice(&after);
    clear_unless(sends, sent);
    Ok(())
}
