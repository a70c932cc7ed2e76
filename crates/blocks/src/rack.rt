// 19 rack: prnd and pval.
ghost use Rattle.std.specs.Prelude.{◌+◌, refl};
ghost use Rattle.blocks.specs.Frame.{body_at};
ghost use Rattle.blocks.specs.declared.kind.Kind.TheVariants.{Rack as the_kind};
ghost use Rattle.blocks.specs.Rows.{rack};
ghost use Rattle.blocks.specs.RowPropers.{RackFits, rack_proper};

use crate::body::Body;
use crate::frame::BODY;
use crate::kind::Kind;
use fields::{Field, Read};
use pages::Line;
use records::RackRow;
use rounds::{Round, Setup};

// Where the fields stand.
const PVAL: usize = BODY + Round::SIZE;

impl Body for RackRow {
    ghost kind = { rack };

    ghost Fits = { RackFits };

    ghost KIND = { the_kind };

    const KIND: Kind = Kind::Rack;

    ghost END = { body_at + rack.body.size };

    const END: usize = PVAL + Line::SIZE;

    ghost proper = { rack_proper };

    ghost kind_is = { refl };

    ghost end_is = { refl };

    fn agents(setup: Setup) -> u8 {
        setup.racks
    }

    fn keeps(self, setup: Setup, agent: u8) -> bool {
        self.rules(setup, agent)
    }

    fn read(block: &[u8]) -> Read<RackRow> {
        let prnd = Round::read(block, BODY);
        let pval = Line::read(block, PVAL);
        Read {
            value: RackRow {
                prnd: prnd.value,
                pval: pval.value,
            },
            exact: prnd.exact & pval.exact,
        }
    }

    fn put(self, block: &mut [u8]) {
        self.prnd.put(block, BODY);
        self.pval.put(block, PVAL);
    }
}
