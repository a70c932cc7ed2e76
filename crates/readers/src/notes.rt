// Note vote and note blank.
ghost use Rattle.std.specs.Prelude.{◌≡◌};
ghost use Rattle.below.specs.Refusals.{number_of};
ghost use Rattle.records.specs.Answers.{noted_of};
ghost use Rattle.readers.specs.Notes.{by_order, same_round_refusal, note_vote_of, note_blank_of};

use below::Refusal;
use pages::{Page, RACKS};
use records::{BOXES, Blank, Held, ReaderRow, TwoA, TwoB};
use rounds::Order;

// By the order of the held round to the message's: a lower one is replaced, a higher one or a clash
// is 6, and `same` says what the same round is.
fn by_order(order: Order, same: Result<(), Refusal>) -> Result<(), Refusal>
    ensures { number_of result ≡ by_order order (number_of same) }
{
    match order {
        Order::Below => Ok(()),
        Order::Equal => same,
        Order::Above | Order::Clash => Err(Refusal::WrongRound),
    }
}

// In the same round only a strict extension replaces.
fn extends(held: Page, page: Page) -> Result<(), Refusal>
    ensures { number_of result ≡ same_round_refusal held page }
{
    Refusal::AlreadyDone.unless(!page.prefix_of(held))?;
    Refusal::LinesClash.unless(held.prefix_of(page))
}

// 11 note vote (2B of the box). Of a box that no row has a slot for there is nothing to hold.
#[tactic(auto, unfolding(crate::specs::Notes::note_vote_of, crate::specs::Notes::note_vote_row, crate::specs::Notes::note_vote_refusal, records::specs::Slots::held_at))]
pub fn note_vote(row: ReaderRow, place: u8, message: TwoB) -> Result<ReaderRow, Refusal>
    ensures { noted_of row result ≡ note_vote_of row place message }
{
    let place = usize::from(place);
    if place >= BOXES {
        return Ok(row);
    }
    let held = &row.held[place];
    if held.filled {
        let order = held.round.compare(message.round);
        let same = if order.is_equal() {
            extends(held.page, message.page)
        } else {
            Ok(())
        };
        by_order(order, same)?;
    }
    let mut after = row;
    // By index: nothing is known of a row after `get_mut` lent a slot of it.
    after.held[place] = Held {
        filled: true,
        round: message.round,
        page: message.page,
    };
    Ok(after)
}

// 12 note blank (2A with Nil, of the rack). Of a rack that no row has a slot for there is nothing to
// hold.
#[tactic(auto, unfolding(crate::specs::Notes::note_blank_of, crate::specs::Notes::note_blank_row, crate::specs::Notes::note_blank_refusal, records::specs::Slots::blank_at))]
pub fn note_blank(row: ReaderRow, rack: u8, message: TwoA) -> Result<ReaderRow, Refusal>
    ensures { noted_of row result ≡ note_blank_of row rack message }
{
    let rack = usize::from(rack);
    Refusal::WrongMessage.unless(message.line.is_nil())?;
    if rack >= RACKS {
        return Ok(row);
    }
    let blank = &row.blanks[rack];
    if blank.filled {
        let order = blank.round.compare(message.round);
        by_order(order, Err(Refusal::AlreadyDone))?;
    }
    let mut after = row;
    // By index, as in note vote.
    after.blanks[rack] = Blank {
        filled: true,
        round: message.round,
    };
    Ok(after)
}
