// Readings and lines.
ghost use Rattle.std.specs.Prelude.{◌≡◌, cond, not, ◌&&◌, ◌||◌};
ghost use Rattle.pages.specs.declared.line.Mark.TheVariants.{Reading as reads};
ghost use Rattle.pages.specs.Lines.{reading_in_range, is_absent, is_nil, is_reading, holds, mark_in_range, append_mark, prefix_mark, compatible_mark};

// What a rack read from a headset: headset × 65,536 + dose in tenths of a percent.
#[derive(Clone, Copy, Debug, PartialEq, Eq)]
pub struct Reading(pub u32);

#[derive(Clone, Copy, Debug, PartialEq, Eq)]
pub enum Mark {
    Absent,
    Nil,
    Reading(Reading),
}

#[derive(Clone, Copy, Debug, PartialEq, Eq)]
pub struct Line {
    pub mark: Mark,
}

impl Reading {
    // Headset 0 does not exist.
    pub const SMALLEST: u32 = 65536;

    pub const LARGEST: u32 = 4294967295;

    pub fn in_range(self) -> bool
        ensures { result ≡ reading_in_range self }
    {
        self.0 >= Reading::SMALLEST && self.0 <= Reading::LARGEST
    }
}

impl Line {
    pub const ABSENT: Line = Line { mark: Mark::Absent };

    pub const NIL: Line = Line { mark: Mark::Nil };

    // By name, as the two above, and not `From`.
    pub fn of(reading: Reading) -> Line
        ensures { result.mark ≡ reads reading }
    {
        Line {
            mark: Mark::Reading(reading),
        }
    }

    pub fn is_absent(self) -> bool
        ensures { result ≡ is_absent self.mark }
    {
        matches!(self.mark, Mark::Absent)
    }

    pub fn is_nil(self) -> bool
        ensures { result ≡ is_nil self.mark }
    {
        matches!(self.mark, Mark::Nil)
    }

    pub fn is_reading(self) -> bool
        ensures { result ≡ is_reading self.mark }
    {
        matches!(self.mark, Mark::Reading(_))
    }

    pub fn holds(self, reading: Reading) -> bool
        ensures { result ≡ holds self.mark reading }
    {
        match self.mark {
            Mark::Reading(mine) => mine == reading,
            _ => false,
        }
    }

    // Absent and Nil are in range; a reading as readings are.
    pub fn in_range(self) -> bool
        ensures { result ≡ mark_in_range self.mark }
    {
        match self.mark {
            Mark::Reading(mine) => mine.in_range(),
            _ => true,
        }
    }

    pub fn append(self, other: Line) -> Line
        ensures { result.mark ≡ append_mark self.mark other.mark }
    {
        match self.mark {
            Mark::Absent => other,
            Mark::Nil => self,
            Mark::Reading(_) => self,
        }
    }

    // Appended where that is asked for, else as it is.
    pub fn append_if(self, yes: bool, other: Line) -> Line
        ensures { result.mark ≡ cond yes (append_mark self.mark other.mark) self.mark }
    {
        if yes { self.append(other) } else { self }
    }

    pub fn prefix_of(self, other: Line) -> bool
        ensures { result ≡ prefix_mark self.mark other.mark }
    {
        match self.mark {
            Mark::Absent => true,
            Mark::Nil => other.is_nil(),
            Mark::Reading(mine) => other.holds(mine),
        }
    }

    pub fn compatible(self, other: Line) -> bool
        ensures { result ≡ compatible_mark self.mark other.mark }
    {
        self.is_absent() || other.prefix_of(self)
    }

    // Of a rack of the set the line is there.
    pub fn present_if(self, member: bool) -> bool
        ensures { result ≡ not (member && is_absent self.mark) }
    {
        !(member && self.is_absent())
    }

    // Of a rack of the set the line is Nil.
    pub fn nil_if(self, member: bool) -> bool
        ensures { result ≡ not member || is_nil self.mark }
    {
        !member || self.is_nil()
    }

    // Of a rack outside the set the line is absent, and a reading is in range.
    pub fn within_if(self, member: bool) -> bool
        ensures { result ≡ (member || is_absent self.mark) && mark_in_range self.mark }
    {
        if member {
            self.in_range()
        } else {
            self.is_absent()
        }
    }
}
