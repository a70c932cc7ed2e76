// An act by the numbers of its refusals, for a caller whose own is any byte.
ghost use Rattle.std.specs.Prelude.{◌≡◌, length};
ghost use Rattle.below.specs.Refusals.{unless, bad_block};
ghost use Rattle.blocks.specs.Frame.{block_size};
ghost use Rattle.kinds.specs.Known.{known};
ghost use Rattle.acts.specs.Named.{named_refusal, own_act};
ghost use Rattle.acts.specs.Codes.{code_number};
ghost use Rattle.acts.specs.Answers.{Acts, step_of};

use crate::acts::perform;
use crate::code::Code;
use crate::numbers::Numbers;
use below::Refusal;
use kinds::kind_of;
use records::Stamp;

// What an act answers.
#[derive(Clone, Copy, Debug, PartialEq, Eq)]
pub struct Acted {
    pub refusal: u8,
    // Whether a message was written.
    pub sends: bool,
}

// What is answered where the caller found something: only a bad row comes before it.
fn late_or_bad(row: &[u8], late: u8) -> u8
    requires { length row.now ≡ block_size }
    ensures { result ≡ unless (known row.now) bad_block late }
{
    if kind_of(row).is_ok() {
        late
    } else {
        Refusal::BadBlock.number()
    }
}

// What the caller found is `late`, any byte, 0 where it found nothing.
pub fn act(
    code: Code,
    numbers: Numbers,
    hall: Stamp,
    late: u8,
    row: &[u8],
    message: &[u8],
    after: &mut [u8],
    sent: &mut [u8],
) -> Acted
    requires row_whole { length row.now ≡ block_size }
    requires message_whole { length message.now ≡ block_size }
    requires after_whole { length after.old ≡ block_size }
    requires sent_whole { length sent.old ≡ block_size }
    ensures { Acts (named_refusal hall late (step_of (code_number code) numbers) row.now message.now) (own_act (step_of (code_number code) numbers) row.now message.now) result.refusal result.sends after.old sent.old after.new sent.new }
{
    if late != 0 {
        return Acted {
            refusal: late_or_bad(row, late),
            sends: false,
        };
    }
    match perform(code, numbers, hall, Ok(()), row, message, after, sent) {
        Ok(sends) => Acted { refusal: 0, sends },
        Err(refusal) => Acted {
            refusal: refusal.number(),
            sends: false,
        },
    }
}
