// 5 2A: a round and a line.
ghost use Rattle.std.specs.Prelude.{◌+◌, refl};
ghost use Rattle.blocks.specs.Frame.{body_at};
ghost use Rattle.blocks.specs.declared.kind.Kind.TheVariants.{TwoA as the_kind};
ghost use Rattle.blocks.specs.Messages.{two_a};
ghost use Rattle.blocks.specs.MessagePropers.{TwoAFits, two_a_proper};

use crate::body::Body;
use crate::frame::BODY;
use crate::kind::Kind;
use fields::{Field, Read};
use pages::Line;
use records::TwoA;
use rounds::{Round, Setup};

// Where the fields stand.
const LINE: usize = BODY + Round::SIZE;

impl Body for TwoA {
    ghost kind = { two_a };

    ghost Fits = { TwoAFits };

    ghost KIND = { the_kind };

    const KIND: Kind = Kind::TwoA;

    ghost END = { body_at + two_a.body.size };

    const END: usize = LINE + Line::SIZE;

    ghost proper = { two_a_proper };

    ghost kind_is = { refl };

    ghost end_is = { refl };

    fn agents(setup: Setup) -> u8 {
        setup.racks
    }

    fn keeps(self, setup: Setup, agent: u8) -> bool {
        self.rules(setup, agent)
    }

    fn read(block: &[u8]) -> Read<TwoA> {
        let round = Round::read(block, BODY);
        let line = Line::read(block, LINE);
        Read {
            value: TwoA {
                round: round.value,
                line: line.value,
            },
            exact: round.exact & line.exact,
        }
    }

    fn put(self, block: &mut [u8]) {
        self.round.put(block, BODY);
        self.line.put(block, LINE);
    }
}
