// 16 head: how many messages the post holds. There is one, agent 0.
ghost use Rattle.std.specs.Prelude.{◌+◌, refl};
ghost use Rattle.blocks.specs.Frame.{body_at};
ghost use Rattle.blocks.specs.declared.kind.Kind.TheVariants.{Head as the_kind};
ghost use Rattle.blocks.specs.Rows.{head};
ghost use Rattle.blocks.specs.RowPropers.{HeadFits, head_proper};

use crate::body::Body;
use crate::frame::BODY;
use crate::kind::Kind;
use fields::{Field, Read};
use records::Head;
use rounds::Setup;

impl Body for Head {
    ghost kind = { head };

    ghost Fits = { HeadFits };

    ghost KIND = { the_kind };

    const KIND: Kind = Kind::Head;

    ghost END = { body_at + head.body.size };

    const END: usize = BODY + u16::SIZE;

    ghost proper = { head_proper };

    ghost kind_is = { refl };

    ghost end_is = { refl };

    fn agents(setup: Setup) -> u8 {
        1
    }

    fn keeps(self, setup: Setup, agent: u8) -> bool {
        self.rules(setup, agent)
    }

    fn read(block: &[u8]) -> Read<Head> {
        let count = u16::read(block, BODY);
        Read {
            value: Head { count: count.value },
            exact: count.exact,
        }
    }

    fn put(self, block: &mut [u8]) {
        self.count.put(block, BODY);
    }
}
