// The act of a step.
ghost use Rattle.std.specs.Prelude.{length, ◌≡◌, false};
ghost use Rattle.below.specs.Refusals.{number_of, value_or};
ghost use Rattle.blocks.specs.Frame.{block_size};
ghost use Rattle.acts.specs.Named.{named_refusal, own_act};
ghost use Rattle.acts.specs.Codes.{code_number};
ghost use Rattle.acts.specs.Answers.{Acts, step_of};

use crate::code::Code;
use crate::named::Named;
use crate::numbers::Numbers;
use crate::shapes::{both_keep, both_send, row_keeps, row_sends};
use below::Refusal;
use blocks::Stamped;
use records::{
    BoxRow, CoordinatorRow, Granted, OneA, OneB, Propose, RackRow, ReaderRow, Stamp, TwoA, TwoB,
    TwoS,
};

// Whether a message is sent. The caller has looked at the numbers' range: what it found is `late`.
pub fn perform(
    code: Code,
    numbers: Numbers,
    hall: Stamp,
    late: Result<(), Refusal>,
    row: &[u8],
    message: &[u8],
    after: &mut [u8],
    sent: &mut [u8],
) -> Result<bool, Refusal>
    requires row_whole { length row.now ≡ block_size }
    requires message_whole { length message.now ≡ block_size }
    requires after_whole { length after.old ≡ block_size }
    requires sent_whole { length sent.old ≡ block_size }
    ensures { Acts (named_refusal hall (number_of late) (step_of (code_number code) numbers) row.now message.now) (own_act (step_of (code_number code) numbers) row.now message.now) (number_of result) (value_or false result) after.old sent.old after.new sent.new }
{
    let named = Named {
        hall,
        late,
        row,
        message,
    };
    let Numbers { round, reading } = numbers;
    match code {
        Code::Offer => row_sends(&named, after, sent, |own: Stamped<RackRow>| {
            let sent = racks::offer(reading);
            Ok(Granted {
                row: own.body,
                sent,
            })
        }),
        Code::Start => row_sends(&named, after, sent, |own: Stamped<CoordinatorRow>| {
            coordinators::start(own.stamp.agent, own.body, round.n, round.cf)
        }),
        Code::Join => both_send(
            &named,
            after,
            sent,
            |own: Stamped<BoxRow>, heard: Stamped<OneA>| boxes::join(own.body, heard.body),
        ),
        Code::Hear => both_keep(
            &named,
            after,
            |own: Stamped<CoordinatorRow>, heard: Stamped<OneB>| {
                coordinators::hear(own.body, heard.stamp.agent, heard.body)
            },
        ),
        Code::Open => row_sends(&named, after, sent, |own: Stamped<CoordinatorRow>| {
            coordinators::open(own.stamp.setup, own.stamp.agent, own.body)
        }),
        Code::Prepare => both_keep(
            &named,
            after,
            |own: Stamped<RackRow>, heard: Stamped<TwoS>| {
                racks::prepare(own.stamp.agent, own.body, heard.body)
            },
        ),
        Code::Fast => both_send(
            &named,
            after,
            sent,
            |own: Stamped<RackRow>, heard: Stamped<Propose>| {
                racks::fast(own.stamp.agent, own.body, heard.body)
            },
        ),
        Code::Blank => both_send(
            &named,
            after,
            sent,
            |own: Stamped<RackRow>, heard: Stamped<TwoA>| {
                racks::blank(own.stamp.agent, own.body, heard.body)
            },
        ),
        Code::TakePage => both_send(
            &named,
            after,
            sent,
            |own: Stamped<BoxRow>, heard: Stamped<TwoS>| boxes::take_page(own.body, heard.body),
        ),
        Code::TakeReading => both_send(
            &named,
            after,
            sent,
            |own: Stamped<BoxRow>, heard: Stamped<TwoA>| {
                boxes::take_reading(own.stamp.setup, own.body, heard.stamp.agent, heard.body)
            },
        ),
        Code::NoteVote => both_keep(
            &named,
            after,
            |own: Stamped<ReaderRow>, heard: Stamped<TwoB>| {
                readers::note_vote(own.body, heard.stamp.agent, heard.body)
            },
        ),
        Code::NoteBlank => both_keep(
            &named,
            after,
            |own: Stamped<ReaderRow>, heard: Stamped<TwoA>| {
                readers::note_blank(own.body, heard.stamp.agent, heard.body)
            },
        ),
        Code::Learn => row_keeps(&named, after, |own: Stamped<ReaderRow>| {
            readers::learn(own.stamp.setup, own.body, round)
        }),
    }
}
