// The blocks of a fresh hall (document 01, 'Rows at the start').
ghost use Rattle.std.specs.Prelude.{eqb, cond, ◌≡◌, length};
ghost use Rattle.blocks.specs.Frame.{block_size};
ghost use Rattle.hall.specs.Halls.{fresh_coordinator, fresh_box, fresh_rack, fresh_reader, row_or_zero, fresh_block};
ghost use Rattle.pages.specs.Pages.{empty, none, some};

use blocks::{Body, put};
use pages::{Line, Page, RACKS, Vote};
use records::{BOXES, Blank, BoxRow, CoordinatorRow, Head, Heard, Held, RackRow, ReaderRow, Stamp};
use rounds::{Instance, Round, Setup};

// Where each sort of row begins, and the messages.
pub const COORDINATORS_AT: usize = 1;

pub const BOXES_AT: usize = 5;

pub const RACKS_AT: usize = 10;

pub const READERS_AT: usize = 18;

pub const MESSAGES_AT: usize = 22;

// The block of an agent's row; all zero where the hall has no such agent.
fn put_row<R: Body>(block: &mut [u8], instance: Instance, setup: Setup, agent: u8, row: R)
    requires { length block.old ≡ block_size }
    ensures { block.new ≡ row_or_zero R.kind instance.0 setup agent row }
{
    if agent < R::agents(setup) {
        let stamp = Stamp {
            instance,
            setup,
            agent,
        };
        put(block, stamp, row);
    } else {
        block.fill(0);
    }
}

#[tactic(auto, unfolding(pages::specs::Pages::empty, pages::specs::Pages::page, below::specs::Below::row))]
fn fresh_box(setup: Setup) -> BoxRow
    ensures { result ≡ fresh_box setup }
{
    BoxRow {
        rnd: Round::zero(setup),
        vrnd: Round::zero(setup),
        vval: Vote::NONE,
    }
}

fn fresh_rack(setup: Setup) -> RackRow
    ensures { result ≡ fresh_rack setup }
{
    RackRow {
        prnd: Round::zero(setup),
        pval: Line::ABSENT,
    }
}

#[tactic(auto, unfolding(pages::specs::Pages::empty, pages::specs::Pages::page, below::specs::Below::row))]
fn fresh_reader() -> ReaderRow
    ensures { result ≡ fresh_reader }
{
    ReaderRow {
        page: Page::EMPTY,
        held: [Held::EMPTY; BOXES],
        blanks: [Blank::EMPTY; RACKS],
    }
}

// cval is the empty page at c0, none elsewhere.
#[tactic(auto, unfolding(pages::specs::Pages::empty, pages::specs::Pages::page, below::specs::Below::row))]
fn first_cval(c0: u8, agent: u8) -> Vote
    ensures { result ≡ cond (eqb agent c0) (some empty) none }
{
    if agent == c0 {
        Vote::of(Page::EMPTY)
    } else {
        Vote::NONE
    }
}

#[tactic(auto, unfolding(pages::specs::Pages::empty, pages::specs::Pages::page, below::specs::Below::row))]
fn fresh_coordinator(setup: Setup, agent: u8) -> CoordinatorRow
    ensures { result ≡ fresh_coordinator setup agent }
{
    CoordinatorRow {
        crnd: Round::zero(setup),
        cval: first_cval(setup.c0, agent),
        heard: [Heard::EMPTY; BOXES],
    }
}

// The block at a place of a fresh hall; unused blocks are zero. A place is below 118, so no cast loses
// anything.
#[tactic(auto, unfolding(crate::specs::Halls::fresh_block))]
pub(crate) fn fresh_block(block: &mut [u8], instance: Instance, setup: Setup, place: usize)
    requires { length block.old ≡ block_size }
    ensures { block.new ≡ fresh_block instance.0 setup place }
{
    if place < COORDINATORS_AT {
        put_row(block, instance, setup, place as u8, Head { count: 0 });
    } else if place < BOXES_AT {
        let agent = (place - COORDINATORS_AT) as u8;
        put_row(
            block,
            instance,
            setup,
            agent,
            fresh_coordinator(setup, agent),
        );
    } else if place < RACKS_AT {
        let agent = (place - BOXES_AT) as u8;
        put_row(block, instance, setup, agent, fresh_box(setup));
    } else if place < READERS_AT {
        let agent = (place - RACKS_AT) as u8;
        put_row(block, instance, setup, agent, fresh_rack(setup));
    } else if place < MESSAGES_AT {
        let agent = (place - READERS_AT) as u8;
        put_row(block, instance, setup, agent, fresh_reader());
    } else {
        block.fill(0);
    }
}
