// The six messages.
ghost use Rattle.std.specs.Prelude.{◌≡◌};
ghost use Rattle.records.specs.Rules.{propose_rules, one_a_rules, one_b_rules, two_s_rules, two_a_rules, two_b_rules};

use crate::votes::{last_rules, open_rules, own_rules};
use pages::{Line, Page, Reading, Vote, has};
use rounds::{Round, Setup};

// A rack offers a reading.
#[derive(Clone, Copy, Debug, PartialEq, Eq)]
pub struct Propose {
    pub reading: Reading,
}

// A coordinator starts a round.
#[derive(Clone, Copy, Debug, PartialEq, Eq)]
pub struct OneA {
    pub round: Round,
}

// A box joins a round and tells its last vote.
#[derive(Clone, Copy, Debug, PartialEq, Eq)]
pub struct OneB {
    pub round: Round,
    pub vrnd: Round,
    pub vote: Vote,
}

// A coordinator opens its round with a page.
#[derive(Clone, Copy, Debug, PartialEq, Eq)]
pub struct TwoS {
    pub round: Round,
    pub page: Page,
}

// A rack proposes its line.
#[derive(Clone, Copy, Debug, PartialEq, Eq)]
pub struct TwoA {
    pub round: Round,
    pub line: Line,
}

// A box tells its vote.
#[derive(Clone, Copy, Debug, PartialEq, Eq)]
pub struct TwoB {
    pub round: Round,
    pub page: Page,
}

impl Propose {
    #[tactic(auto, unfolding(crate::specs::Rules::propose_rules))]
    pub fn rules(self, setup: Setup, agent: u8) -> bool
        ensures { result ≡ propose_rules setup agent self }
    {
        self.reading.in_range()
    }
}

impl OneA {
    #[tactic(auto, unfolding(crate::specs::Rules::one_a_rules))]
    pub fn rules(self, setup: Setup, agent: u8) -> bool
        ensures { result ≡ one_a_rules setup agent self }
    {
        own_rules(setup, agent, self.round)
    }
}

impl OneB {
    #[tactic(auto, unfolding(crate::specs::Rules::one_b_rules))]
    pub fn rules(self, setup: Setup, agent: u8) -> bool
        ensures { result ≡ one_b_rules setup agent self }
    {
        self.round.in_range(setup)
            && last_rules(setup, self.vrnd, self.vote)
            && self.vrnd.compare(self.round).is_below()
    }
}

impl TwoS {
    #[tactic(auto, unfolding(crate::specs::Rules::two_s_rules))]
    pub fn rules(self, setup: Setup, agent: u8) -> bool
        ensures { result ≡ two_s_rules setup agent self }
    {
        own_rules(setup, agent, self.round) && open_rules(setup, self.page)
    }
}

impl TwoA {
    #[tactic(auto, unfolding(crate::specs::Rules::two_a_rules))]
    pub fn rules(self, setup: Setup, agent: u8) -> bool
        ensures { result ≡ two_a_rules setup agent self }
    {
        self.round.in_range(setup)
            && self.line.in_range()
            && has(self.round.cf, usize::from(agent))
            && !self.line.is_absent()
    }
}

impl TwoB {
    #[tactic(auto, unfolding(crate::specs::Rules::two_b_rules))]
    pub fn rules(self, setup: Setup, agent: u8) -> bool
        ensures { result ≡ two_b_rules setup agent self }
    {
        self.round.in_range(setup) && self.page.within(setup.racks) && self.page.valued()
    }
}
