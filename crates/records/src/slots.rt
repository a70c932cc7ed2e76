// The slots of coordinators and readers: what was heard or held of each box or rack.
ghost use Rattle.std.specs.Prelude.{◌≡◌};
ghost use Rattle.records.specs.Rules.{nothing_heard, filled_heard, heard_rules, held_rules, blank_rules};

use crate::votes::last_rules;
use pages::{Page, Vote};
use rounds::{Number, Round, Setup};

// What a coordinator heard of one box.
//
// `filled` stays a flag beside what it is about, here and below: writers answer 2 for content under
// flag 0 (their contracts `Writes`), and an Option could not be handed such a record.
#[derive(Clone, Copy, Debug, PartialEq, Eq)]
pub struct Heard {
    pub filled: bool,
    pub vrnd: Round,
    pub vote: Vote,
}

// What a reader holds of one box. The flag stays, as in `Heard`.
#[derive(Clone, Copy, Debug, PartialEq, Eq)]
pub struct Held {
    pub filled: bool,
    pub round: Round,
    pub page: Page,
}

// In which round a reader holds one rack blank. The flag stays, as in `Heard`.
#[derive(Clone, Copy, Debug, PartialEq, Eq)]
pub struct Blank {
    pub filled: bool,
    pub round: Round,
}

// No round at all, as an empty slot stores it.
pub const NO_ROUND: Round = Round {
    n: Number(0),
    c: 0,
    cf: 0,
};

impl Heard {
    pub const EMPTY: Heard = Heard {
        filled: false,
        vrnd: NO_ROUND,
        vote: Vote::NONE,
    };

    #[tactic(auto, unfolding(crate::specs::Rules::nothing_heard))]
    fn nothing(self) -> bool
        ensures { result ≡ nothing_heard self }
    {
        self.vrnd == NO_ROUND && !self.vote.some && self.vote.page.is_empty()
    }

    #[tactic(auto, unfolding(crate::specs::Rules::filled_heard))]
    fn heard_rules(self, setup: Setup, crnd: Round, place: usize) -> bool
        ensures { result ≡ filled_heard setup crnd place self }
    {
        place < usize::from(setup.boxes)
            && crnd != Round::zero(setup)
            && last_rules(setup, self.vrnd, self.vote)
            && self.vrnd.compare(crnd).is_below()
    }

    // A slot of a box: only of one that exists, only in a round that was started, and below it.
    #[tactic(auto, unfolding(crate::specs::Rules::heard_rules))]
    pub fn rules(self, setup: Setup, crnd: Round, place: usize) -> bool
        ensures { result ≡ heard_rules setup crnd place self }
    {
        if self.filled {
            self.heard_rules(setup, crnd, place)
        } else {
            self.nothing()
        }
    }
}

impl Held {
    pub const EMPTY: Held = Held {
        filled: false,
        round: NO_ROUND,
        page: Page::EMPTY,
    };

    // A held page is valued.
    #[tactic(auto, unfolding(crate::specs::Rules::held_rules, crate::specs::Rules::nothing_held))]
    pub fn rules(self, setup: Setup, place: usize) -> bool
        ensures { result ≡ held_rules setup place self }
    {
        if self.filled {
            place < usize::from(setup.boxes)
                && self.round.in_range(setup)
                && self.page.within(setup.racks)
                && self.page.valued()
        } else {
            self.round == NO_ROUND && self.page.is_empty()
        }
    }
}

impl Blank {
    pub const EMPTY: Blank = Blank {
        filled: false,
        round: NO_ROUND,
    };

    #[tactic(auto, unfolding(crate::specs::Rules::blank_rules))]
    pub fn rules(self, setup: Setup, rack: usize) -> bool
        ensures { result ≡ blank_rules setup rack self }
    {
        if self.filled {
            rack < usize::from(setup.racks) && self.round.in_range(setup)
        } else {
            self.round == NO_ROUND
        }
    }
}
