// 4 2S: a round and a page.
ghost use Rattle.std.specs.Prelude.{◌+◌, refl};
ghost use Rattle.blocks.specs.Frame.{body_at};
ghost use Rattle.blocks.specs.declared.kind.Kind.TheVariants.{TwoS as the_kind};
ghost use Rattle.blocks.specs.Messages.{two_s};
ghost use Rattle.blocks.specs.MessagePropers.{TwoSFits, two_s_proper};

use crate::body::Body;
use crate::frame::BODY;
use crate::kind::Kind;
use fields::{Field, Read};
use pages::Page;
use records::TwoS;
use rounds::{Round, Setup};

// Where the fields stand.
const PAGE: usize = BODY + Round::SIZE;

impl Body for TwoS {
    ghost kind = { two_s };

    ghost Fits = { TwoSFits };

    ghost KIND = { the_kind };

    const KIND: Kind = Kind::TwoS;

    ghost END = { body_at + two_s.body.size };

    const END: usize = PAGE + Page::SIZE;

    ghost proper = { two_s_proper };

    ghost kind_is = { refl };

    ghost end_is = { refl };

    fn agents(setup: Setup) -> u8 {
        setup.coordinators
    }

    fn keeps(self, setup: Setup, agent: u8) -> bool {
        self.rules(setup, agent)
    }

    fn read(block: &[u8]) -> Read<TwoS> {
        let round = Round::read(block, BODY);
        let page = Page::read(block, PAGE);
        Read {
            value: TwoS {
                round: round.value,
                page: page.value,
            },
            exact: round.exact & page.exact,
        }
    }

    fn put(self, block: &mut [u8]) {
        self.round.put(block, BODY);
        self.page.put(block, PAGE);
    }
}
