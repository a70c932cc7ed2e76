// Join, take page and take reading.
ghost use Rattle.std.specs.Prelude.{◌≡◌};
ghost use Rattle.records.specs.Answers.{answer_of};
ghost use Rattle.boxes.specs.Steps.{join_of, may_vote, voted, telling, take_page_of, take_reading_page, take_reading_of, no_one_b, no_two_b};

use below::Refusal;
use pages::{Page, Vote, outside};
use records::{BoxRow, Granted, OneA, OneB, TwoA, TwoB, TwoS};
use rounds::{Round, Setup};

// Whether a box may vote in a round: rnd is not above it, and it clashes with neither rnd nor vrnd.
fn may_vote(row: BoxRow, round: Round) -> bool
    ensures { result ≡ may_vote row round }
{
    row.rnd.compare(round).is_up_to() && !row.vrnd.compare(round).is_clash()
}

// The page of a vote for a reading: the first of its round is that one line, and Nil of the racks
// outside cf; else one line more.
#[tactic(auto, unfolding(crate::specs::Steps::take_reading_page, pages::specs::Pages::empty, pages::specs::Pages::page, below::specs::Below::row), using(pages::proofs::Extension::nil_outside))]
fn reading_page(setup: Setup, row: BoxRow, rack: u8, message: TwoA) -> Page
    ensures { result ≡ take_reading_page setup row rack message }
{
    let lower = row.vrnd.compare(message.round).is_below();
    if lower || !row.vval.some {
        Page::EMPTY
            .append(usize::from(rack), message.line)
            .nil_extension(outside(message.round.cf, setup.racks))
    } else {
        row.vval.page.append(usize::from(rack), message.line)
    }
}

// The box votes for the page in the round and tells it.
fn vote(round: Round, page: Page) -> Granted<BoxRow, TwoB>
    ensures { (result.row ≡ voted round page) × (result.sent ≡ telling round page) }
{
    Granted {
        row: BoxRow {
            rnd: round,
            vrnd: round,
            vval: Vote::of(page),
        },
        sent: TwoB { round, page },
    }
}

// 3 join (1A).
#[tactic(auto, unfolding(crate::specs::Steps::join_of, crate::specs::Steps::join_refusal, crate::specs::Steps::join_row, crate::specs::Steps::join_sent))]
pub fn join(row: BoxRow, message: OneA) -> Result<Granted<BoxRow, OneB>, Refusal>
    ensures { answer_of row no_one_b result ≡ join_of row message }
{
    Refusal::WrongRound.unless(message.round.compare(row.rnd).is_above())?;
    Ok(Granted {
        row: BoxRow {
            rnd: message.round,
            ..row
        },
        sent: OneB {
            round: message.round,
            vrnd: row.vrnd,
            vote: row.vval,
        },
    })
}

// 9 take page (2S not empty).
#[tactic(auto, unfolding(crate::specs::Steps::take_page_of, crate::specs::Steps::take_page_refusal))]
pub fn take_page(row: BoxRow, message: TwoS) -> Result<Granted<BoxRow, TwoB>, Refusal>
    ensures { answer_of row no_two_b result ≡ take_page_of row message }
{
    let voted = row.vrnd.compare(message.round).is_equal() && row.vval.some;
    Refusal::WrongMessage.unless(!message.page.is_empty())?;
    Refusal::WrongRound.unless(may_vote(row, message.round))?;
    Refusal::AlreadyDone.unless(!voted)?;
    Ok(vote(message.round, message.page))
}

// 10 take reading (2A with a reading, of `rack`).
#[tactic(auto, unfolding(crate::specs::Steps::take_reading_of, crate::specs::Steps::take_reading_refusal))]
pub fn take_reading(
    setup: Setup,
    row: BoxRow,
    rack: u8,
    message: TwoA,
) -> Result<Granted<BoxRow, TwoB>, Refusal>
    ensures { answer_of row no_two_b result ≡ take_reading_of setup row rack message }
{
    Refusal::WrongMessage.unless(message.line.is_reading())?;
    Refusal::WrongRound.unless(may_vote(row, message.round))?;
    let page = reading_page(setup, row, rack, message);
    Ok(vote(message.round, page))
}
