// The kinds of block.
ghost use Rattle.std.specs.Prelude.{◌≡◌};
ghost use Rattle.blocks.specs.Numbers.{number, named};

#[derive(Clone, Copy, Debug, PartialEq, Eq)]
pub enum Kind {
    Propose,
    OneA,
    OneB,
    TwoS,
    TwoA,
    TwoB,
    Head,
    Coordinator,
    Box,
    Rack,
    Reader,
}

impl Kind {
    // Document 01's number, by its table; the numbers leave a gap, so no cast of the variant's place gives it.
    pub fn number(self) -> u8
        ensures { result ≡ number self }
    {
        match self {
            Kind::Propose => 1,
            Kind::OneA => 2,
            Kind::OneB => 3,
            Kind::TwoS => 4,
            Kind::TwoA => 5,
            Kind::TwoB => 6,
            Kind::Head => 16,
            Kind::Coordinator => 17,
            Kind::Box => 18,
            Kind::Rack => 19,
            Kind::Reader => 20,
        }
    }

    // The kind with a number, if there is one. Not `TryFrom`: which refusal that is, the caller says.
    pub fn of(byte: u8) -> Option<Kind>
        ensures { result ≡ named byte }
    {
        match byte {
            1 => Some(Kind::Propose),
            2 => Some(Kind::OneA),
            3 => Some(Kind::OneB),
            4 => Some(Kind::TwoS),
            5 => Some(Kind::TwoA),
            6 => Some(Kind::TwoB),
            16 => Some(Kind::Head),
            17 => Some(Kind::Coordinator),
            18 => Some(Kind::Box),
            19 => Some(Kind::Rack),
            20 => Some(Kind::Reader),
            _ => None,
        }
    }
}
