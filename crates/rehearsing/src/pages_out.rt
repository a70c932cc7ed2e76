// The pages at the end of a rehearsal: a line for each reader and rack.
ghost use Rattle.std.specs.Prelude.{◌+◌, ◌*◌, ◌≤◌, ◌<◌, length, ◌≡◌};
ghost use Rattle.pages.specs.Pages.{at as mark_at};
ghost use Rattle.fields.specs.Codecs.{run};
ghost use Rattle.hall.specs.Halls.{hall_size};
ghost use Rattle.lines.specs.Texts.{page_line_text, page_line_room, Put};
ghost use Rattle.rehearsing.specs.Rehearsals.{page_of, pages_text};
ghost use Rattle.rehearsing.specs.Turns.{stage_pages, pages_room};

use crate::rehearsal::Stage;
use blocks::BLOCK;
use fields::Field;
use hall::{HALL, READERS_AT};
use lines::put_page_line;
use pages::Page;
use rounds::Setup;

// Where the page stands in a reader's row.
const PAGE: usize = 10;

#[tactic(auto, using(crate::proofs::PageLines::page_read))]
fn page_of(hall: &[u8], reader: u32) -> Page
    requires { (length hall.now ≡ hall_size) × (reader < 4) }
    ensures { result ≡ page_of hall.now reader }
{
    // `usize` has no From of 32 bits.
    let from = (READERS_AT + reader as usize) * BLOCK;
    let to = from + BLOCK;
    Page::read(&hall[from..to], PAGE).value
}

// Readers and racks are counted, here and below, since their numbers are printed; `usize` has no From of
// 32 bits.
fn put_page(page: Page, reader: u32, racks: u32, out: &mut [u8], at: usize) -> usize
    requires { at + page_line_room * racks ≤ length out.old }
    ensures { Put at (run racks (λ rack. page_line_text reader rack (mark_at page rack))) out.old out.new result }
{
    let mut to = at;
    for rack in 0..racks {
        to = put_page_line(out, to, reader, rack, page.at(rack as usize));
    }
    to
}

fn put_pages(hall: &[u8], readers: u32, racks: u32, out: &mut [u8], at: usize) -> usize
    requires hall_len { (length hall.now ≡ hall_size) × ((readers ≤ 4) × (racks ≤ 8)) }
    requires pages_room_in_bounds { at + pages_room ≤ length out.old }
    ensures { Put at (run readers (λ i. run racks (λ rack. page_line_text i rack (mark_at (page_of hall.now i) rack)))) out.old out.new result }
{
    let mut to = at;
    for reader in 0..readers {
        let page = page_of(hall, reader);
        to = put_page(page, reader, racks, out, to);
    }
    to
}

#[tactic(auto, using(crate::proofs::Turning::put_nothing), unfolding(crate::specs::Rehearsals::pages_text))]
fn hall_pages(hall: &[u8], readers: u32, racks: u32, out: &mut [u8], at: usize) -> usize
    requires readers_bound { (readers ≤ 4) × (racks ≤ 8) }
    requires pages_room_in_bounds { at + pages_room ≤ length out.old }
    ensures { Put at (pages_text readers racks hall.now) out.old out.new result }
{
    if hall.len() == HALL {
        put_pages(hall, readers, racks, out, at)
    } else {
        at
    }
}

// Only after a setup that was granted are there pages.
#[tactic(auto, using(crate::proofs::Turning::put_nothing))]
pub(crate) fn stage_pages(hall: &[u8], stage: Stage, out: &mut [u8], at: usize) -> usize
    requires { at + pages_room ≤ length out.old }
    ensures { Put at (stage_pages stage hall.now) out.old out.new result }
{
    match stage {
        Stage::Steps { readers, racks } => {
            let most_readers = readers.min(Setup::MOST_READERS);
            let most_racks = racks.min(Setup::MOST_RACKS);
            hall_pages(hall, most_readers, most_racks, out, at)
        }
        Stage::Setup | Stage::Over => at,
    }
}
