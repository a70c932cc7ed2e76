// 1 PROPOSE: a reading.
ghost use Rattle.std.specs.Prelude.{◌+◌, refl};
ghost use Rattle.blocks.specs.Frame.{body_at};
ghost use Rattle.blocks.specs.declared.kind.Kind.TheVariants.{Propose as the_kind};
ghost use Rattle.blocks.specs.Messages.{propose};
ghost use Rattle.blocks.specs.MessagePropers.{ProposeFits, propose_proper};

use crate::body::Body;
use crate::frame::BODY;
use crate::kind::Kind;
use fields::{Field, Read};
use pages::Reading;
use records::Propose;
use rounds::Setup;

impl Body for Propose {
    ghost kind = { propose };

    ghost Fits = { ProposeFits };

    ghost KIND = { the_kind };

    const KIND: Kind = Kind::Propose;

    ghost END = { body_at + propose.body.size };

    const END: usize = BODY + Reading::SIZE;

    ghost proper = { propose_proper };

    ghost kind_is = { refl };

    ghost end_is = { refl };

    fn agents(setup: Setup) -> u8 {
        setup.racks
    }

    fn keeps(self, setup: Setup, agent: u8) -> bool {
        self.rules(setup, agent)
    }

    fn read(block: &[u8]) -> Read<Propose> {
        let reading = Reading::read(block, BODY);
        Read {
            value: Propose {
                reading: reading.value,
            },
            exact: reading.exact,
        }
    }

    fn put(self, block: &mut [u8]) {
        self.reading.put(block, BODY);
    }
}
