// Start, hear and open.
ghost use Rattle.std.specs.Prelude.{◌≡◌};
ghost use Rattle.records.specs.Answers.{answer_of, noted_of};
ghost use Rattle.coordinators.specs.Steps.{start_of, hear_of, open_of, no_one_a, no_two_s};

use crate::heard::{any_clash, any_vote, heard_count};
use crate::joined::{joined_votes, page_of};
use below::Refusal;
use pages::Vote;
use records::{BOXES, CoordinatorRow, Granted, Heard, OneA, OneB, TwoS};
use rounds::{Number, Round, Setup};

// 2 start (n, cf; c is the agent).
#[tactic(auto, unfolding(crate::specs::Steps::start_of, crate::specs::Steps::start_refusal, crate::specs::Steps::start_row, pages::specs::Pages::empty, pages::specs::Pages::page, below::specs::Below::row))]
pub fn start(
    agent: u8,
    row: CoordinatorRow,
    n: Number,
    cf: u8,
) -> Result<Granted<CoordinatorRow, OneA>, Refusal>
    ensures { answer_of row no_one_a result ≡ start_of agent row n.0 cf }
{
    let round = Round { n, c: agent, cf };
    Refusal::WrongRound.unless(round.compare(row.crnd).is_above())?;
    Ok(Granted {
        row: CoordinatorRow {
            crnd: round,
            cval: Vote::NONE,
            heard: [Heard::EMPTY; BOXES],
        },
        sent: OneA { round },
    })
}

// 4 hear (1B of the box at `place`). A box that no row has a slot for was not heard, and nothing is
// kept of it.
#[tactic(auto, unfolding(crate::specs::Steps::hear_of, crate::specs::Steps::hear_refusal, crate::specs::Steps::hear_row, records::specs::Slots::heard_at))]
pub fn hear(row: CoordinatorRow, place: u8, message: OneB) -> Result<CoordinatorRow, Refusal>
    ensures { noted_of row result ≡ hear_of row place message }
{
    let place = usize::from(place);
    let heard = row.heard.get(place).is_some_and(|slot| slot.filled);
    Refusal::WrongRound.unless(message.round.compare(row.crnd).is_equal())?;
    Refusal::AlreadyDone.unless(!row.cval.some && !heard)?;
    // By index: nothing is known of a row after `get_mut` lent a slot of it.
    let mut kept = row;
    if place < BOXES {
        kept.heard[place] = Heard {
            filled: true,
            vrnd: message.vrnd,
            vote: message.vote,
        };
    }
    Ok(kept)
}

// 5 open.
#[tactic(auto, unfolding(crate::specs::Steps::open_of, crate::specs::Steps::open_refusal, crate::specs::Steps::open_page, crate::specs::Steps::open_row))]
pub fn open(
    setup: Setup,
    agent: u8,
    row: CoordinatorRow,
) -> Result<Granted<CoordinatorRow, TwoS>, Refusal>
    ensures { answer_of row no_two_s result ≡ open_of setup agent row }
{
    let joined = joined_votes(row);
    Refusal::WrongRound.unless(row.crnd.c == agent && !any_clash(row))?;
    Refusal::AlreadyDone.unless(!row.cval.some)?;
    Refusal::NoMajority.unless(usize::from(setup.majority()) <= heard_count(row))?;
    Refusal::LinesClash.unless(joined.some)?;
    let page = page_of(setup.racks, any_vote(row), joined.page);
    Ok(Granted {
        row: CoordinatorRow {
            cval: Vote::of(page),
            ..row
        },
        sent: TwoS {
            round: row.crnd,
            page,
        },
    })
}
