// 3 1B: a round, vrnd and the last vote.
ghost use Rattle.std.specs.Prelude.{◌+◌, refl};
ghost use Rattle.blocks.specs.Frame.{body_at};
ghost use Rattle.blocks.specs.declared.kind.Kind.TheVariants.{OneB as the_kind};
ghost use Rattle.blocks.specs.Messages.{one_b};
ghost use Rattle.blocks.specs.MessagePropers.{OneBFits, one_b_proper};

use crate::body::Body;
use crate::frame::BODY;
use crate::kind::Kind;
use fields::{Field, Read};
use pages::Vote;
use records::OneB;
use rounds::{Round, Setup};

// Where the fields stand.
const VRND: usize = BODY + Round::SIZE;

const VOTE: usize = VRND + Round::SIZE;

impl Body for OneB {
    ghost kind = { one_b };

    ghost Fits = { OneBFits };

    ghost KIND = { the_kind };

    const KIND: Kind = Kind::OneB;

    ghost END = { body_at + one_b.body.size };

    const END: usize = VOTE + Vote::SIZE;

    ghost proper = { one_b_proper };

    ghost kind_is = { refl };

    ghost end_is = { refl };

    fn agents(setup: Setup) -> u8 {
        setup.boxes
    }

    fn keeps(self, setup: Setup, agent: u8) -> bool {
        self.rules(setup, agent)
    }

    fn read(block: &[u8]) -> Read<OneB> {
        let round = Round::read(block, BODY);
        let vrnd = Round::read(block, VRND);
        let vote = Vote::read(block, VOTE);
        Read {
            value: OneB {
                round: round.value,
                vrnd: vrnd.value,
                vote: vote.value,
            },
            exact: round.exact & (vrnd.exact & vote.exact),
        }
    }

    fn put(self, block: &mut [u8]) {
        self.round.put(block, BODY);
        self.vrnd.put(block, VRND);
        self.vote.put(block, VOTE);
    }
}
