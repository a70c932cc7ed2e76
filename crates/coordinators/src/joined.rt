// The votes of the highest vrnd, joined, and the page that opens a round.
ghost use Rattle.std.specs.Prelude.{◌≡◌, cond};
ghost use Rattle.pages.specs.Racks.{racks_below};
ghost use Rattle.pages.specs.Pages.{empty, nil_extension};
ghost use Rattle.coordinators.specs.Steps.{joined_votes};

use crate::heard::is_highest;
use pages::{Page, Vote, outside};
use records::CoordinatorRow;

// No vote at all where two of them are not compatible: in the record's own form, a stored vote.
pub fn joined_votes(row: CoordinatorRow) -> Vote
    ensures { result ≡ joined_votes row }
{
    let nothing = Vote::of(Page::EMPTY);
    row.heard.iter().fold(nothing, |votes, slot| {
        if is_highest(row, *slot) && votes.some {
            votes.page.join(slot.vote.page)
        } else {
            votes
        }
    })
}

// The joined votes Nil-extended over all racks of the hall; the empty page where there is no vote.
#[tactic(auto, unfolding(pages::specs::Pages::empty, pages::specs::Pages::page, below::specs::Below::row), using(pages::proofs::Extension::nil_all))]
pub fn page_of(racks: u8, voted: bool, joined: Page) -> Page
    ensures { result ≡ cond voted (nil_extension (racks_below racks) joined) empty }
{
    if voted {
        joined.nil_extension(outside(0, racks))
    } else {
        Page::EMPTY
    }
}
