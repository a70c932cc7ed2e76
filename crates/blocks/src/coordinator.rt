// 17 coordinator: crnd, cval and what was heard.
ghost use Rattle.std.specs.Prelude.{◌+◌, refl};
ghost use Rattle.blocks.specs.Frame.{body_at};
ghost use Rattle.blocks.specs.declared.kind.Kind.TheVariants.{Coordinator as the_kind};
ghost use Rattle.blocks.specs.Rows.{coordinator};
ghost use Rattle.blocks.specs.RowPropers.{CoordinatorFits, coordinator_proper};

use crate::body::Body;
use crate::frame::BODY;
use crate::kind::Kind;
use fields::{Field, Read, put_all, read_all};
use pages::Vote;
use records::{BOXES, CoordinatorRow, Heard};
use rounds::{Round, Setup};

// Where the fields stand.
const CVAL: usize = BODY + Round::SIZE;

const HEARD: usize = CVAL + Vote::SIZE;

impl Body for CoordinatorRow {
    ghost kind = { coordinator };

    ghost Fits = { CoordinatorFits };

    ghost KIND = { the_kind };

    const KIND: Kind = Kind::Coordinator;

    ghost END = { body_at + coordinator.body.size };

    const END: usize = HEARD + BOXES * Heard::SIZE;

    ghost proper = { coordinator_proper };

    ghost kind_is = { refl };

    ghost end_is = { refl };

    fn agents(setup: Setup) -> u8 {
        setup.coordinators
    }

    fn keeps(self, setup: Setup, agent: u8) -> bool {
        self.rules(setup, agent)
    }

    fn read(block: &[u8]) -> Read<CoordinatorRow> {
        let crnd = Round::read(block, BODY);
        let cval = Vote::read(block, CVAL);
        let slots = read_all::<Heard, BOXES>(block, HEARD);
        let heard = slots.value;
        Read {
            value: CoordinatorRow {
                crnd: crnd.value,
                cval: cval.value,
                heard,
            },
            exact: crnd.exact & (cval.exact & slots.exact),
        }
    }

    fn put(self, block: &mut [u8]) {
        self.crnd.put(block, BODY);
        self.cval.put(block, CVAL);
        put_all::<Heard, BOXES>(self.heard, block, HEARD);
    }
}
