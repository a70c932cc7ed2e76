// 6 2B: a round and a page.
ghost use Rattle.std.specs.Prelude.{◌+◌, refl};
ghost use Rattle.blocks.specs.Frame.{body_at};
ghost use Rattle.blocks.specs.declared.kind.Kind.TheVariants.{TwoB as the_kind};
ghost use Rattle.blocks.specs.Messages.{two_b};
ghost use Rattle.blocks.specs.MessagePropers.{TwoBFits, two_b_proper};

use crate::body::Body;
use crate::frame::BODY;
use crate::kind::Kind;
use fields::{Field, Read};
use pages::Page;
use records::TwoB;
use rounds::{Round, Setup};

// Where the fields stand.
const PAGE: usize = BODY + Round::SIZE;

impl Body for TwoB {
    ghost kind = { two_b };

    ghost Fits = { TwoBFits };

    ghost KIND = { the_kind };

    const KIND: Kind = Kind::TwoB;

    ghost END = { body_at + two_b.body.size };

    const END: usize = PAGE + Page::SIZE;

    ghost proper = { two_b_proper };

    ghost kind_is = { refl };

    ghost end_is = { refl };

    fn agents(setup: Setup) -> u8 {
        setup.boxes
    }

    fn keeps(self, setup: Setup, agent: u8) -> bool {
        self.rules(setup, agent)
    }

    fn read(block: &[u8]) -> Read<TwoB> {
        let round = Round::read(block, BODY);
        let page = Page::read(block, PAGE);
        Read {
            value: TwoB {
                round: round.value,
                page: page.value,
            },
            exact: round.exact & page.exact,
        }
    }

    fn put(self, block: &mut [u8]) {
        self.round.put(block, BODY);
        self.page.put(block, PAGE);
    }
}
