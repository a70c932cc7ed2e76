// What is kept between two bytes of the input.
ghost use Rattle.std.specs.Prelude.{◌≡◌};
ghost use Rattle.rehearsing.specs.Turns.{beginning, is_over};

use lines::Scan;

// Before the setup line; after a setup that was granted, with its readers and racks; after one that
// was refused or unreadable, when nothing more is read.
#[derive(Clone, Copy)]
pub enum Stage {
    Setup,
    Steps { readers: u32, racks: u32 },
    Over,
}

// How far the rehearsal is, what has been read of the open line, and whether any byte of it has. The flag
// stays beside the scan: what a piece of input makes is promised of any of them.
#[derive(Clone, Copy)]
pub struct Rehearsal {
    pub stage: Stage,
    pub scan: Scan,
    pub begun: bool,
}

// The rehearsal after a turn, and the place behind what it printed.
#[derive(Clone, Copy)]
pub struct Played {
    pub rehearsal: Rehearsal,
    pub to: usize,
}

// The same after a part of a line, and the place of the input behind it.
#[derive(Clone, Copy)]
pub(crate) struct Part {
    pub rehearsal: Rehearsal,
    pub to: usize,
    pub from: usize,
}

impl Rehearsal {
    pub const START: Rehearsal = Rehearsal {
        stage: Stage::Setup,
        scan: Scan::START,
        begun: false,
    };

    // At the beginning of a line.
    pub(crate) fn beginning(stage: Stage) -> Rehearsal
        ensures { result ≡ beginning stage }
    {
        Rehearsal {
            stage,
            scan: Scan::START,
            begun: false,
        }
    }

    // Whether the rest of the input says nothing.
    pub fn over(self) -> bool
        ensures { result ≡ is_over self.stage }
    {
        matches!(self.stage, Stage::Over)
    }
}
