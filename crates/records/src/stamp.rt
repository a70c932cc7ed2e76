// What every block says of itself besides its kind.
ghost use Rattle.std.specs.Prelude.{◌≡◌};
ghost use Rattle.records.specs.Rules.{stamp_rules};

use rounds::{Instance, Setup};

#[derive(Clone, Copy, Debug, PartialEq, Eq)]
pub struct Stamp {
    pub instance: Instance,
    pub setup: Setup,
    // A message's sender; the row's own agent; 0 in the head.
    pub agent: u8,
}

impl Stamp {
    // Setup and instance are in range, and the agent is one of as many as there are of its sort.
    #[tactic(auto, unfolding(crate::specs::Rules::stamp_rules))]
    pub fn rules(self, agents: u8) -> bool
        ensures { result ≡ stamp_rules self agents }
    {
        self.setup.in_range() && self.instance.0 <= Instance::LARGEST && self.agent < agents
    }
}
