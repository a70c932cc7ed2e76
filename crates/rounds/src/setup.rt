// The setup of a hall, and its majority.
ghost use Rattle.std.specs.Prelude.{◌≡◌};
ghost use Rattle.rounds.specs.Setups.{one_to, some_racks, setup_of, setup_in_range, majority_of};

// An instance number, 0 to 65,535.
#[derive(Clone, Copy, Debug, PartialEq, Eq)]
pub struct Instance(pub u16);

// P racks, A boxes, C coordinators, L readers, and round Zero's c and cf.
#[derive(Clone, Copy, Debug, PartialEq, Eq)]
pub struct Setup {
    pub racks: u8,
    pub boxes: u8,
    pub coordinators: u8,
    pub readers: u8,
    pub c0: u8,
    pub cf0: u8,
}

// A number as any 32-bit caller hands it in, tested whole before it is narrowed.
fn one_to(limit: u32, x: u32) -> bool
    ensures { result ≡ one_to limit x }
{
    0 < x && x <= limit
}

// Whether cf is a non-empty set of the racks below `racks`, as bits.
#[tactic(auto, using(crate::proofs::Tested::shifted_out, crate::proofs::Tested::racks_many))]
pub fn some_racks(racks: u32, cf: u32) -> bool
    ensures { result ≡ some_racks racks cf }
{
    0 < cf && (racks >= 32 || cf >> racks == 0)
}

impl Instance {
    pub const LARGEST: u16 = 65535;
}

impl Setup {
    pub const MOST_RACKS: u32 = 8;

    pub const MOST_BOXES: u32 = 5;

    pub const MOST_COORDINATORS: u32 = 4;

    pub const MOST_READERS: u32 = 4;

    // The numbers that set a hall up, any at all, tested whole and never narrowed first.
    #[tactic(auto, unfolding(crate::specs::Setups::setup_in_range))]
    pub fn numbers_in_range(
        racks: u32,
        boxes: u32,
        coordinators: u32,
        readers: u32,
        c0: u32,
        cf0: u32,
    ) -> bool
        ensures { result ≡ setup_in_range (setup_of racks boxes coordinators readers c0 cf0) }
    {
        one_to(Setup::MOST_RACKS, racks)
            && one_to(Setup::MOST_BOXES, boxes)
            && one_to(Setup::MOST_COORDINATORS, coordinators)
            && one_to(Setup::MOST_READERS, readers)
            && c0 < coordinators
            && some_racks(racks, cf0)
    }

    pub fn in_range(self) -> bool
        ensures { result ≡ setup_in_range self }
    {
        Setup::numbers_in_range(
            u32::from(self.racks),
            u32::from(self.boxes),
            u32::from(self.coordinators),
            u32::from(self.readers),
            u32::from(self.c0),
            u32::from(self.cf0),
        )
    }

    // A majority is this many boxes or more.
    pub fn majority(self) -> u8
        ensures { result ≡ majority_of self.boxes }
    {
        self.boxes / 2 + 1
    }
}
