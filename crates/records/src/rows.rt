// The head and the rows of the four sorts of agent.
ghost use Rattle.std.specs.Prelude.{◌≡◌};
ghost use Rattle.records.specs.Rules.{head_rules, coordinator_rules, box_rules, rack_rules, reader_rules, all_heard, all_held, all_blanks};

use crate::slots::{Blank, Heard, Held};
use crate::votes::{last_rules, opened_rules};
use pages::{Line, Page, RACKS, Vote};
use rounds::{Round, Setup};

// The most boxes that a hall has, and so the slots for boxes in a row.
pub const BOXES: usize = 5;

// How many messages the post holds.
#[derive(Clone, Copy, Debug, PartialEq, Eq)]
pub struct Head {
    pub count: u16,
}

#[derive(Clone, Copy, Debug, PartialEq, Eq)]
pub struct CoordinatorRow {
    pub crnd: Round,
    pub cval: Vote,
    // One slot per box.
    pub heard: [Heard; BOXES],
}

#[derive(Clone, Copy, Debug, PartialEq, Eq)]
pub struct BoxRow {
    pub rnd: Round,
    pub vrnd: Round,
    pub vval: Vote,
}

#[derive(Clone, Copy, Debug, PartialEq, Eq)]
pub struct RackRow {
    pub prnd: Round,
    // Absent where pval is none.
    pub pval: Line,
}

#[derive(Clone, Copy, Debug, PartialEq, Eq)]
pub struct ReaderRow {
    pub page: Page,
    // One slot per box.
    pub held: [Held; BOXES],
    // One slot per rack.
    pub blanks: [Blank; RACKS],
}

impl Head {
    // The post has room for this many messages.
    pub const MOST: u16 = 96;

    #[tactic(auto, unfolding(crate::specs::Rules::head_rules))]
    pub fn rules(self, setup: Setup, agent: u8) -> bool
        ensures { result ≡ head_rules setup agent self }
    {
        self.count <= Head::MOST
    }
}

impl CoordinatorRow {
    fn heard_rules(self, setup: Setup) -> bool
        ensures { result ≡ all_heard setup self }
    {
        self.heard
            .iter()
            .enumerate()
            .all(|(place, slot)| slot.rules(setup, self.crnd, place))
    }

    #[tactic(auto, unfolding(crate::specs::Rules::coordinator_rules))]
    pub fn rules(self, setup: Setup, agent: u8) -> bool
        ensures { result ≡ coordinator_rules setup agent self }
    {
        self.crnd.in_range(setup)
            && (self.crnd == Round::zero(setup) || self.crnd.c == agent)
            && opened_rules(setup, self.cval)
            && self.heard_rules(setup)
    }
}

impl BoxRow {
    #[tactic(auto, unfolding(crate::specs::Rules::box_rules))]
    pub fn rules(self, setup: Setup, agent: u8) -> bool
        ensures { result ≡ box_rules setup agent self }
    {
        self.rnd.in_range(setup)
            && last_rules(setup, self.vrnd, self.vval)
            && !self.vrnd.compare(self.rnd).is_above()
    }
}

impl RackRow {
    #[tactic(auto, unfolding(crate::specs::Rules::rack_rules))]
    pub fn rules(self, setup: Setup, agent: u8) -> bool
        ensures { result ≡ rack_rules setup agent self }
    {
        self.prnd.in_range(setup) && self.pval.in_range()
    }
}

impl ReaderRow {
    // Boxes and racks each by the rules of their own slot, here and below: one function for both would be
    // longer.
    fn held_rules(self, setup: Setup) -> bool
        ensures { result ≡ all_held setup self }
    {
        self.held
            .iter()
            .enumerate()
            .all(|(place, slot)| slot.rules(setup, place))
    }

    fn blank_rules(self, setup: Setup) -> bool
        ensures { result ≡ all_blanks setup self }
    {
        self.blanks
            .iter()
            .enumerate()
            .all(|(rack, slot)| slot.rules(setup, rack))
    }

    #[tactic(auto, unfolding(crate::specs::Rules::reader_rules))]
    pub fn rules(self, setup: Setup, agent: u8) -> bool
        ensures { result ≡ reader_rules setup agent self }
    {
        self.page.within(setup.racks)
            && !self.page.trivial(setup.racks)
            && self.held_rules(setup)
            && self.blank_rules(setup)
    }
}
