// 18 box: rnd, vrnd, vval.
ghost use Rattle.std.specs.Prelude.{◌+◌, refl};
ghost use Rattle.blocks.specs.Frame.{body_at};
ghost use Rattle.blocks.specs.declared.kind.Kind.TheVariants.{Box as the_kind};
ghost use Rattle.blocks.specs.Rows.{box};
ghost use Rattle.blocks.specs.RowPropers.{BoxFits, box_proper};

use crate::body::Body;
use crate::frame::BODY;
use crate::kind::Kind;
use fields::{Field, Read};
use pages::Vote;
use records::BoxRow;
use rounds::{Round, Setup};

// Where the fields stand.
const VRND: usize = BODY + Round::SIZE;

const VVAL: usize = VRND + Round::SIZE;

impl Body for BoxRow {
    ghost kind = { box };

    ghost Fits = { BoxFits };

    ghost KIND = { the_kind };

    const KIND: Kind = Kind::Box;

    ghost END = { body_at + box.body.size };

    const END: usize = VVAL + Vote::SIZE;

    ghost proper = { box_proper };

    ghost kind_is = { refl };

    ghost end_is = { refl };

    fn agents(setup: Setup) -> u8 {
        setup.boxes
    }

    fn keeps(self, setup: Setup, agent: u8) -> bool {
        self.rules(setup, agent)
    }

    fn read(block: &[u8]) -> Read<BoxRow> {
        let rnd = Round::read(block, BODY);
        let vrnd = Round::read(block, VRND);
        let vval = Vote::read(block, VVAL);
        Read {
            value: BoxRow {
                rnd: rnd.value,
                vrnd: vrnd.value,
                vval: vval.value,
            },
            exact: rnd.exact & (vrnd.exact & vval.exact),
        }
    }

    fn put(self, block: &mut [u8]) {
        self.rnd.put(block, BODY);
        self.vrnd.put(block, VRND);
        self.vval.put(block, VVAL);
    }
}
