// 20 reader: its page, what is held and the blanks.
ghost use Rattle.std.specs.Prelude.{◌+◌, refl};
ghost use Rattle.blocks.specs.Frame.{body_at};
ghost use Rattle.blocks.specs.declared.kind.Kind.TheVariants.{Reader as the_kind};
ghost use Rattle.blocks.specs.Rows.{reader};
ghost use Rattle.blocks.specs.RowPropers.{ReaderFits, reader_proper};

use crate::body::Body;
use crate::frame::BODY;
use crate::kind::Kind;
use fields::{Field, Read, put_all, read_all};
use pages::{Page, RACKS};
use records::{BOXES, Blank, Held, ReaderRow};
use rounds::Setup;

// Where the fields stand.
const HELD: usize = BODY + Page::SIZE;

const BLANKS: usize = HELD + BOXES * Held::SIZE;

impl Body for ReaderRow {
    ghost kind = { reader };

    ghost Fits = { ReaderFits };

    ghost KIND = { the_kind };

    const KIND: Kind = Kind::Reader;

    ghost END = { body_at + reader.body.size };

    const END: usize = BLANKS + RACKS * Blank::SIZE;

    ghost proper = { reader_proper };

    ghost kind_is = { refl };

    ghost end_is = { refl };

    fn agents(setup: Setup) -> u8 {
        setup.readers
    }

    fn keeps(self, setup: Setup, agent: u8) -> bool {
        self.rules(setup, agent)
    }

    fn read(block: &[u8]) -> Read<ReaderRow> {
        let page = Page::read(block, BODY);
        let slots = read_all::<Held, BOXES>(block, HELD);
        let held = slots.value;
        let rounds = read_all::<Blank, RACKS>(block, BLANKS);
        let blanks = rounds.value;
        Read {
            value: ReaderRow {
                page: page.value,
                held,
                blanks,
            },
            exact: page.exact & (slots.exact & rounds.exact),
        }
    }

    fn put(self, block: &mut [u8]) {
        self.page.put(block, BODY);
        put_all::<Held, BOXES>(self.held, block, HELD);
        put_all::<Blank, RACKS>(self.blanks, block, BLANKS);
    }
}
