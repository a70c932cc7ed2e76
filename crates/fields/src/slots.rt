// Slots, each a flag and what was heard or is held. A row has an array of them.
ghost use Rattle.std.specs.Prelude.{refl};
ghost use Rattle.records.specs.Slots.{no_blank};
ghost use Rattle.fields.specs.Layout.{heard, held, blank, past_heard, past_held};
ghost use Rattle.fields.specs.Sizes.{heard_long, held_long};

use crate::array::Slot;
use crate::field::{Field, Read};
use pages::{Page, Vote};
use records::{Blank, Heard, Held};
use rounds::Round;

impl Field for Heard {
    ghost codec = { heard };

    ghost SIZE = { 46 };

    ghost size_is = { refl };

    const SIZE: usize = bool::SIZE + Round::SIZE + Vote::SIZE;

    fn read(bytes: &[u8], at: usize) -> Read<Heard> {
        let filled = bool::read(bytes, at);
        let vrnd = Round::read(bytes, at + bool::SIZE);
        let vote = Vote::read(bytes, at + bool::SIZE + Round::SIZE);
        Read {
            value: Heard {
                filled: filled.value,
                vrnd: vrnd.value,
                vote: vote.value,
            },
            exact: filled.exact & (vrnd.exact & vote.exact),
        }
    }

    fn put(self, bytes: &mut [u8], at: usize) {
        self.filled.put(bytes, at);
        self.vrnd.put(bytes, at + bool::SIZE);
        self.vote.put(bytes, at + bool::SIZE + Round::SIZE);
    }
}

impl Slot for Heard {
    ghost past = { past_heard };

    ghost long = { heard_long };

    const EMPTY: Heard = Heard::EMPTY;
}

impl Field for Held {
    ghost codec = { held };

    ghost SIZE = { 45 };

    ghost size_is = { refl };

    const SIZE: usize = bool::SIZE + Round::SIZE + Page::SIZE;

    fn read(bytes: &[u8], at: usize) -> Read<Held> {
        let filled = bool::read(bytes, at);
        let round = Round::read(bytes, at + bool::SIZE);
        let page = Page::read(bytes, at + bool::SIZE + Round::SIZE);
        Read {
            value: Held {
                filled: filled.value,
                round: round.value,
                page: page.value,
            },
            exact: filled.exact & (round.exact & page.exact),
        }
    }

    fn put(self, bytes: &mut [u8], at: usize) {
        self.filled.put(bytes, at);
        self.round.put(bytes, at + bool::SIZE);
        self.page.put(bytes, at + bool::SIZE + Round::SIZE);
    }
}

impl Slot for Held {
    ghost past = { past_held };

    ghost long = { held_long };

    const EMPTY: Held = Held::EMPTY;
}

impl Field for Blank {
    ghost codec = { blank };

    ghost SIZE = { 5 };

    ghost size_is = { refl };

    const SIZE: usize = bool::SIZE + Round::SIZE;

    fn read(bytes: &[u8], at: usize) -> Read<Blank> {
        let filled = bool::read(bytes, at);
        let round = Round::read(bytes, at + bool::SIZE);
        Read {
            value: Blank {
                filled: filled.value,
                round: round.value,
            },
            exact: filled.exact & round.exact,
        }
    }

    fn put(self, bytes: &mut [u8], at: usize) {
        self.filled.put(bytes, at);
        self.round.put(bytes, at + bool::SIZE);
    }
}

impl Slot for Blank {
    ghost past = { no_blank };

    ghost long = { λ v. refl };

    const EMPTY: Blank = Blank::EMPTY;
}
