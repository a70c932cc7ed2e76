// What a coordinator heard, slot by slot: votes, clashes, the highest vrnd, how many.
ghost use Rattle.std.specs.Prelude.{◌≡◌};
ghost use Rattle.below.specs.Below.{any};
ghost use Rattle.rounds.specs.Setups.{most_boxes};
ghost use Rattle.records.specs.Slots.{heard_at};
ghost use Rattle.coordinators.specs.Steps.{is_vote, clashing, higher, any_vote, any_clash, highest, heard_count};

use records::{CoordinatorRow, Heard};

fn is_vote(slot: Heard) -> bool
    ensures { result ≡ is_vote slot }
{
    slot.filled && slot.vote.some
}

fn clashing(mine: Heard, theirs: Heard) -> bool
    ensures { result ≡ clashing mine theirs }
{
    is_vote(mine) && is_vote(theirs) && mine.vrnd.compare(theirs.vrnd).is_clash()
}

fn higher(theirs: Heard, mine: Heard) -> bool
    ensures { result ≡ higher theirs mine }
{
    is_vote(theirs) && theirs.vrnd.compare(mine.vrnd).is_above()
}

// Some slot holds a vote.
pub fn any_vote(row: CoordinatorRow) -> bool
    ensures { result ≡ any_vote row }
{
    row.heard.iter().any(|slot| is_vote(*slot))
}

// Some heard vote's vrnd clashes with that of `mine`.
fn clashes(row: CoordinatorRow, mine: Heard) -> bool
    ensures { result ≡ any most_boxes (λ b. clashing mine (heard_at row b)) }
{
    row.heard.iter().any(|slot| clashing(mine, *slot))
}

pub fn any_clash(row: CoordinatorRow) -> bool
    ensures { result ≡ any_clash row }
{
    row.heard.iter().any(|slot| clashes(row, *slot))
}

// Some heard vote has a higher vrnd than `mine`.
fn overtaken(row: CoordinatorRow, mine: Heard) -> bool
    ensures { result ≡ any most_boxes (λ b. higher (heard_at row b) mine) }
{
    row.heard.iter().any(|slot| higher(*slot, mine))
}

// A vote of the highest vrnd that has any.
#[tactic(auto, unfolding(crate::specs::Steps::highest))]
pub fn is_highest(row: CoordinatorRow, mine: Heard) -> bool
    ensures { result ≡ highest row mine }
{
    is_vote(mine) && !overtaken(row, mine)
}

// How many boxes were heard, with a vote or without.
pub fn heard_count(row: CoordinatorRow) -> usize
    ensures { result ≡ heard_count row }
{
    row.heard.iter().filter(|slot| slot.filled).count()
}
