// Offer, prepare, fast and blank.
ghost use Rattle.std.specs.Prelude.{◌≡◌, cond};
ghost use Rattle.pages.specs.declared.line.Mark.TheVariants.{Absent};
ghost use Rattle.pages.specs.Pages.{at, empty_of};
ghost use Rattle.records.specs.Answers.{answer_of, noted_of};
ghost use Rattle.racks.specs.Steps.{offer_of, prepare_of, fast_of, blank_of, no_two_a, said, saying};

use below::Refusal;
use pages::{Line, Page, Reading, has};
use records::{Granted, Propose, RackRow, TwoA, TwoS};

// The rack's line of a page that opens a round; none where the page is empty.
fn own_line(page: Page, agent: u8) -> Line
    ensures { result.mark ≡ cond (empty_of page) Absent (at page agent) }
{
    if page.is_empty() {
        Line::ABSENT
    } else {
        page.at(usize::from(agent))
    }
}

// The rack speaks its line in prnd.
fn speak(row: RackRow, line: Line) -> Granted<RackRow, TwoA>
    ensures { (result.row ≡ said row line.mark) × (result.sent ≡ saying row line.mark) }
{
    let round = row.prnd;
    Granted {
        row: RackRow {
            prnd: round,
            pval: line,
        },
        sent: TwoA { round, line },
    }
}

// 1 offer: reads the rack's row, changes none; sends PROPOSE.
pub fn offer(reading: Reading) -> Propose
    ensures { result.reading ≡ (offer_of reading).reading }
{
    Propose { reading }
}

// 6 prepare (2S).
#[tactic(auto, unfolding(crate::specs::Steps::prepare_of, crate::specs::Steps::prepare_refusal, crate::specs::Steps::prepare_row))]
pub fn prepare(agent: u8, row: RackRow, message: TwoS) -> Result<RackRow, Refusal>
    ensures { noted_of row result ≡ prepare_of agent row message }
{
    Refusal::WrongRound.unless(message.round.compare(row.prnd).is_above())?;
    Ok(RackRow {
        prnd: message.round,
        pval: own_line(message.page, agent),
    })
}

// 7 fast (PROPOSE of any rack).
#[tactic(auto, unfolding(crate::specs::Steps::fast_of, crate::specs::Steps::fast_refusal))]
pub fn fast(agent: u8, row: RackRow, message: Propose) -> Result<Granted<RackRow, TwoA>, Refusal>
    ensures { answer_of row no_two_a result ≡ fast_of agent row message }
{
    Refusal::WrongRound.unless(has(row.prnd.cf, usize::from(agent)))?;
    Refusal::AlreadyDone.unless(row.pval.is_absent())?;
    Ok(speak(row, Line::of(message.reading)))
}

// 8 blank (2A with a reading).
#[tactic(auto, unfolding(crate::specs::Steps::blank_of, crate::specs::Steps::blank_refusal))]
pub fn blank(agent: u8, row: RackRow, message: TwoA) -> Result<Granted<RackRow, TwoA>, Refusal>
    ensures { answer_of row no_two_a result ≡ blank_of agent row message }
{
    let fits = message.round.compare(row.prnd).is_equal();
    Refusal::WrongMessage.unless(message.line.is_reading())?;
    Refusal::WrongRound.unless(fits && has(row.prnd.cf, usize::from(agent)))?;
    Refusal::AlreadyDone.unless(row.pval.is_absent())?;
    Ok(speak(row, Line::NIL))
}
