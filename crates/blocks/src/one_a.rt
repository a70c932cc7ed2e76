// 2 1A: a round.
ghost use Rattle.std.specs.Prelude.{◌+◌, refl};
ghost use Rattle.blocks.specs.Frame.{body_at};
ghost use Rattle.blocks.specs.declared.kind.Kind.TheVariants.{OneA as the_kind};
ghost use Rattle.blocks.specs.Messages.{one_a};
ghost use Rattle.blocks.specs.MessagePropers.{OneAFits, one_a_proper};

use crate::body::Body;
use crate::frame::BODY;
use crate::kind::Kind;
use fields::{Field, Read};
use records::OneA;
use rounds::{Round, Setup};

impl Body for OneA {
    ghost kind = { one_a };

    ghost Fits = { OneAFits };

    ghost KIND = { the_kind };

    const KIND: Kind = Kind::OneA;

    ghost END = { body_at + one_a.body.size };

    const END: usize = BODY + Round::SIZE;

    ghost proper = { one_a_proper };

    ghost kind_is = { refl };

    ghost end_is = { refl };

    fn agents(setup: Setup) -> u8 {
        setup.coordinators
    }

    fn keeps(self, setup: Setup, agent: u8) -> bool {
        self.rules(setup, agent)
    }

    fn read(block: &[u8]) -> Read<OneA> {
        let round = Round::read(block, BODY);
        Read {
            value: OneA { round: round.value },
            exact: round.exact,
        }
    }

    fn put(self, block: &mut [u8]) {
        self.round.put(block, BODY);
    }
}
