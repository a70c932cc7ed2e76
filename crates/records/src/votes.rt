// Rules that several records share: of votes, of pages that open a round, of rounds.
ghost use Rattle.std.specs.Prelude.{◌≡◌};
ghost use Rattle.records.specs.Rules.{vote_rules, open_rules, last_rules, own_rules, opened_rules};

use pages::{Page, Vote};
use rounds::{Round, Setup};

// A vote is valued; none holds no page.
#[tactic(auto, unfolding(crate::specs::Rules::vote_rules))]
pub fn vote_rules(setup: Setup, vote: Vote) -> bool
    ensures { result ≡ vote_rules setup vote }
{
    vote.page.within(setup.racks)
        && if vote.some {
            vote.page.valued()
        } else {
            vote.page.is_empty()
        }
}

// A page that opens a round is empty, or complete and valued.
#[tactic(auto, unfolding(crate::specs::Rules::open_rules))]
pub fn open_rules(setup: Setup, page: Page) -> bool
    ensures { result ≡ open_rules setup page }
{
    page.within(setup.racks) && (page.is_empty() || page.complete(setup.racks) && page.valued())
}

// What a round was opened with, if it was.
#[tactic(auto, unfolding(crate::specs::Rules::opened_rules))]
pub fn opened_rules(setup: Setup, vote: Vote) -> bool
    ensures { result ≡ opened_rules setup vote }
{
    if vote.some {
        open_rules(setup, vote.page)
    } else {
        vote.page.is_empty()
    }
}

// A last vote: its round is in range, and Zero where there is none.
#[tactic(auto, unfolding(crate::specs::Rules::last_rules))]
pub fn last_rules(setup: Setup, vrnd: Round, vote: Vote) -> bool
    ensures { result ≡ last_rules setup vrnd vote }
{
    vrnd.in_range(setup) && vote_rules(setup, vote) && (vote.some || vrnd == Round::zero(setup))
}

// A round of a coordinator's own: n of 1 or more and c the agent.
#[tactic(auto, unfolding(crate::specs::Rules::own_rules))]
pub fn own_rules(setup: Setup, agent: u8, round: Round) -> bool
    ensures { result ≡ own_rules setup agent round }
{
    round.in_range(setup) && round.n.0 > 0 && round.c == agent
}
