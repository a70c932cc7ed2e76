// Learn, by counting. A page is chosen if it is a prefix of all extended pages of some majority; so
// the chosen pages joined have, per rack, the line that a majority of the held boxes' pages agree
// on. Two majorities share a box, so there is at most one such line.
ghost use Rattle.std.specs.Prelude.{◌≡◌, ◌<◌};
ghost use Rattle.below.specs.Below.{count, row};
ghost use Rattle.pages.specs.Racks.{has, most_racks, set_of};
ghost use Rattle.pages.specs.Pages.{line, page};
ghost use Rattle.rounds.specs.Setups.{most_boxes};
ghost use Rattle.records.specs.Answers.{noted_of};
ghost use Rattle.readers.specs.Learning.{held_in, blank_in};
ghost use Rattle.readers.specs.Counting.{carrying, enough, agreed_line, held_line, line_at, learnt_of, counted_of};

use below::Refusal;
use pages::{Line, Page, RACKS, below_all, has};
use records::{BOXES, ReaderRow};
use rounds::{Round, Setup};
use std::array;

// The lines that count for one rack, by box: of the held boxes' pages, Nil-extended; absent for a box
// that is not held. They are taken from the row as they are asked for, so no page is copied.
#[derive(Clone, Copy)]
struct Column {
    lines: [Line; BOXES],
}

// Whether a box is held at exactly this round.
#[tactic(auto, unfolding(records::specs::Slots::held_at))]
fn is_held(setup: Setup, row: &ReaderRow, round: Round, place: usize) -> bool
    ensures { result ≡ held_in setup row.now round place }
{
    place < usize::from(setup.boxes)
        && row
            .held
            .get(place)
            .is_some_and(|slot| slot.filled && slot.round == round)
}

// Whether a rack is of cf and held blank at exactly this round. Not one with the above: another slot, and
// another test of the place.
#[tactic(auto, unfolding(records::specs::Slots::blank_at))]
fn is_blank(row: &ReaderRow, round: Round, rack: usize) -> bool
    ensures { result ≡ blank_in row.now round rack }
{
    has(round.cf, rack)
        && row
            .blanks
            .get(rack)
            .is_some_and(|slot| slot.filled && slot.round == round)
}

// The racks of cf held blank at exactly the round, as bits, so from the highest rack down. The loop is
// `pages::outside`'s with another test: two lines, and a closure for it would say more than they do.
#[tactic(auto, using(pages::proofs::Sets::set_start, crate::proofs::Ways::set_turn, pages::proofs::Sets::set_ends))]
fn blank_racks(row: &ReaderRow, round: Round) -> u8
    ensures { result ≡ set_of most_racks (blank_in row.now round) }
{
    let mut set: u8 = 0;
    for rack in (0..RACKS).rev() {
        set = below_all(set, is_blank(row, round, rack));
    }
    set
}

// How many boxes are held at exactly the round. By box number: whether a box counts is told by its number.
fn held_boxes(setup: Setup, row: &ReaderRow, round: Round) -> usize
    ensures { result ≡ count most_boxes (held_in setup row.now round) }
{
    (0..BOXES)
        .filter(|b| is_held(setup, row, round, *b))
        .count()
}

fn held_line(setup: Setup, row: &ReaderRow, round: Round, blanks: u8, rack: usize, b: usize) -> Line
    requires a_rack { rack < most_racks }
    requires a_box { b < most_boxes }
    ensures { result.mark ≡ held_line setup row.now round (has blanks) rack b }
{
    if is_held(setup, row, round, b) {
        row.held[b]
            .page
            .at(rack)
            .append_if(has(blanks, rack), Line::NIL)
    } else {
        Line::ABSENT
    }
}

impl Column {
    fn of(setup: Setup, reader: &ReaderRow, round: Round, blanks: u8, rack: usize) -> Column
        requires { rack < most_racks }
        ensures { result.lines ≡ row most_boxes (λ b. line (held_line setup reader.now round (has blanks) rack b)) }
    {
        Column {
            lines: array::from_fn(|b| held_line(setup, reader, round, blanks, rack, b)),
        }
    }

    // How many boxes' pages have this line.
    fn carrying(&self, line: Line) -> usize
        ensures { result ≡ carrying most_boxes (line_at self.now) line.mark }
    {
        self.lines
            .iter()
            .filter(|theirs| line.prefix_of(**theirs))
            .count()
    }

    // Whether this is a line, and enough boxes' pages have it.
    #[tactic(auto, unfolding(crate::specs::Counting::enough))]
    fn enough(&self, need: usize, line: Line) -> bool
        ensures { result ≡ enough most_boxes need (line_at self.now) line.mark }
    {
        !line.is_absent() && need <= self.carrying(line)
    }

    // The line that enough boxes' pages have, absent if there is none.
    fn agreed(&self, need: usize) -> Line
        ensures { result.mark ≡ agreed_line most_boxes need (line_at self.now) }
    {
        self.lines
            .iter()
            .copied()
            .find(|line| self.enough(need, *line))
            .unwrap_or(Line::ABSENT)
    }
}

fn agreed_page(setup: Setup, row: &ReaderRow, round: Round, blanks: u8, need: usize) -> Page
    ensures { result ≡ page (λ k. agreed_line most_boxes need (held_line setup row.now round (has blanks) k)) }
{
    Page {
        lines: array::from_fn(|k| Column::of(setup, row, round, blanks, k).agreed(need)),
    }
}

// The reader's page joined with all chosen pages: 9 if not compatible or if the result is trivial.
#[tactic(auto, unfolding(crate::specs::Counting::learnt_of))]
fn join_chosen(racks: u8, page: Page, chosen: Page) -> Result<Page, Refusal>
    ensures { noted_of page result ≡ learnt_of racks page chosen }
{
    Refusal::LinesClash.unless(page.compatible(chosen))?;
    let joined = page.union(chosen);
    Refusal::LinesClash.unless(!joined.trivial(racks))?;
    Ok(joined)
}

#[tactic(auto, using(crate::proofs::CountedWays::counted_few))]
pub fn counted(setup: Setup, row: ReaderRow, round: Round) -> Result<ReaderRow, Refusal>
    ensures { noted_of row result ≡ counted_of setup row round }
{
    let need = usize::from(setup.majority());
    let boxes = held_boxes(setup, &row, round);
    Refusal::NoMajority.unless(need <= boxes)?;
    let blanks = blank_racks(&row, round);
    let chosen = agreed_page(setup, &row, round, blanks, need);
    let page = join_chosen(setup.racks, row.page, chosen)?;
    Ok(ReaderRow { page, ..row })
}
