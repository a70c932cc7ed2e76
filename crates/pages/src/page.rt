// Pages and votes.
ghost use Rattle.std.specs.Prelude.{◌≡◌};
ghost use Rattle.pages.specs.Racks.{has, racks_below};
ghost use Rattle.pages.specs.Pages.{at, append_of, prefix_of, compatible_of, union_of, join_of, nil_extension, complete_of, trivial_of, valued_of, empty_of, within_of, some};

use crate::line::Line;
use crate::racks::{RACKS, has};
use std::array;

#[derive(Clone, Copy, Debug, PartialEq, Eq)]
pub struct Page {
    pub lines: [Line; RACKS],
}

// A stored vote is either none or a page. The flag stays beside the page: writers answer 2 for a page
// under flag 0 (their contracts `Writes`), and an Option could not be handed such a record.
#[derive(Clone, Copy, Debug, PartialEq, Eq)]
pub struct Vote {
    pub some: bool,
    pub page: Page,
}

impl Page {
    pub const EMPTY: Page = Page {
        lines: [Line::ABSENT; RACKS],
    };

    // The line of a rack, absent where there is no such rack.
    #[tactic(auto, using(crate::proofs::Filled::past_lines, crate::proofs::Filled::length_mapped), unfolding(crate::specs::Pages::at))]
    pub fn at(&self, rack: usize) -> Line
        ensures { result.mark ≡ at self.now rack }
    {
        if rack < RACKS {
            self.lines[rack]
        } else {
            Line::ABSENT
        }
    }

    pub fn append(self, rack: usize, line: Line) -> Page
        ensures { result ≡ append_of self rack line.mark }
    {
        Page {
            lines: array::from_fn(|k| self.lines[k].append_if(k == rack, line)),
        }
    }

    pub fn prefix_of(self, other: Page) -> bool
        ensures { result ≡ prefix_of self other }
    {
        self.lines
            .iter()
            .zip(other.lines.iter())
            .all(|(mine, theirs)| mine.prefix_of(*theirs))
    }

    pub fn compatible(self, other: Page) -> bool
        ensures { result ≡ compatible_of self other }
    {
        self.lines
            .iter()
            .zip(other.lines.iter())
            .all(|(mine, theirs)| mine.compatible(*theirs))
    }

    // All lines of both; where both have a line, this page's.
    pub fn union(self, other: Page) -> Page
        ensures { result ≡ union_of self other }
    {
        Page {
            lines: array::from_fn(|k| self.lines[k].append(other.lines[k])),
        }
    }

    // All lines of both, only if compatible. A stored vote is the answer, not an Option: `join_of` is one,
    // and its laws speak of it.
    #[tactic(auto, unfolding(crate::specs::Pages::join_of, crate::specs::Pages::empty, crate::specs::Pages::page, below::specs::Below::row))]
    pub fn join(self, other: Page) -> Vote
        ensures { result ≡ join_of self other }
    {
        if self.compatible(other) {
            Vote::of(self.union(other))
        } else {
            Vote::NONE
        }
    }

    // Nil appended for each rack of the set.
    pub fn nil_extension(self, racks: u8) -> Page
        ensures { result ≡ nil_extension (has racks) self }
    {
        Page {
            lines: array::from_fn(|k| self.lines[k].append_if(has(racks, k), Line::NIL)),
        }
    }

    // No line absent, of the racks of the hall.
    pub fn complete(self, racks: u8) -> bool
        ensures { result ≡ complete_of (racks_below racks) self }
    {
        self.lines
            .iter()
            .enumerate()
            .all(|(k, line)| line.present_if(k < usize::from(racks)))
    }

    // Complete and all Nil.
    pub fn trivial(self, racks: u8) -> bool
        ensures { result ≡ trivial_of (racks_below racks) self }
    {
        self.lines
            .iter()
            .enumerate()
            .all(|(k, line)| line.nil_if(k < usize::from(racks)))
    }

    // At least one reading.
    pub fn valued(self) -> bool
        ensures { result ≡ valued_of self }
    {
        self.lines.iter().any(|line| line.is_reading())
    }

    pub fn is_empty(self) -> bool
        ensures { result ≡ empty_of self }
    {
        self.lines.iter().all(|line| line.is_absent())
    }

    // Lines of racks that the hall has not are absent, and readings are in range.
    #[inline(always)]
    pub fn within(self, racks: u8) -> bool
        ensures { result ≡ within_of (racks_below racks) self }
    {
        self.lines
            .iter()
            .enumerate()
            .all(|(k, line)| line.within_if(k < usize::from(racks)))
    }
}

impl Vote {
    pub const NONE: Vote = Vote {
        some: false,
        page: Page::EMPTY,
    };

    pub fn of(page: Page) -> Vote
        ensures { result ≡ some page }
    {
        Vote { some: true, page }
    }
}
