// Lines, pages and votes.
ghost use Rattle.std.specs.Prelude.{◌≡◌, refl};
ghost use Rattle.pages.specs.declared.line.Mark.TheVariants.{Absent};
ghost use Rattle.pages.specs.Pages.{line};
ghost use Rattle.fields.specs.Layout.{state_of, payload_of, line_of, line_exact, line_as, page, vote};

use crate::array::{Slot, put_all, read_all};
use crate::field::{Field, Read};
use pages::{Line, Mark, Page, RACKS, Reading, Vote};

// A line and its two parts in bytes, here and below: by hand, since what a byte means is document 01's.
fn line_of(state: u8, value: Reading) -> Line
    ensures { result ≡ line_of state value }
{
    match state {
        1 => Line::NIL,
        2 => Line::of(value),
        _ => Line::ABSENT,
    }
}

fn line_exact(state: u8, value: Reading) -> bool
    ensures { result ≡ line_exact state value }
{
    match state {
        0 | 1 => value.0 == 0,
        2 => true,
        _ => false,
    }
}

fn state_of(value: Line) -> u8
    ensures { result ≡ state_of value.mark }
{
    match value.mark {
        Mark::Absent => 0,
        Mark::Nil => 1,
        Mark::Reading(_) => 2,
    }
}

fn payload_of(value: Line) -> Reading
    ensures { result ≡ payload_of value.mark }
{
    match value.mark {
        Mark::Reading(reading) => reading,
        _ => Reading(0),
    }
}

impl Field for Line {
    ghost codec = { line_as };

    ghost SIZE = { 5 };

    ghost size_is = { refl };

    const SIZE: usize = 1 + Reading::SIZE;

    #[inline(always)]
    fn read(bytes: &[u8], at: usize) -> Read<Line> {
        let state = bytes[at];
        let reading = Reading::read(bytes, at + 1).value;
        Read {
            value: line_of(state, reading),
            exact: line_exact(state, reading),
        }
    }

    fn put(self, bytes: &mut [u8], at: usize) {
        words::put_u8(bytes, at, state_of(self));
        payload_of(self).put(bytes, at + 1);
    }
}

impl Slot for Line {
    ghost past = { line Absent };

    ghost long = { λ v. refl };

    const EMPTY: Line = Line::ABSENT;
}

impl Field for Page {
    ghost codec = { page };

    ghost SIZE = { 40 };

    ghost size_is = { refl };

    const SIZE: usize = RACKS * Line::SIZE;

    #[inline(always)]
    fn read(bytes: &[u8], at: usize) -> Read<Page> {
        let read = read_all::<Line, RACKS>(bytes, at);
        let lines = read.value;
        Read {
            value: Page { lines },
            exact: read.exact,
        }
    }

    fn put(self, bytes: &mut [u8], at: usize) {
        put_all::<Line, RACKS>(self.lines, bytes, at);
    }
}

impl Field for Vote {
    ghost codec = { vote };

    ghost SIZE = { 41 };

    ghost size_is = { refl };

    const SIZE: usize = bool::SIZE + Page::SIZE;

    #[inline(always)]
    fn read(bytes: &[u8], at: usize) -> Read<Vote> {
        let some = bool::read(bytes, at);
        let page = Page::read(bytes, at + bool::SIZE);
        Read {
            value: Vote {
                some: some.value,
                page: page.value,
            },
            exact: some.exact & page.exact,
        }
    }

    fn put(self, bytes: &mut [u8], at: usize) {
        self.some.put(bytes, at);
        self.page.put(bytes, at + bool::SIZE);
    }
}
