// Rounds.
ghost use Rattle.std.specs.Prelude.{◌≡◌};
ghost use Rattle.rounds.specs.Rounds.{zero_of, round_of, round_in_range, order_of};

use crate::order::Order;
use crate::setup::{Setup, some_racks};

// A round's n.
#[derive(Clone, Copy, Debug, PartialEq, Eq)]
pub struct Number(pub u16);

// (n, c, cf): number, coordinator, and the racks that may speak, as bits.
#[derive(Clone, Copy, Debug, PartialEq, Eq)]
pub struct Round {
    pub n: Number,
    pub c: u8,
    pub cf: u8,
}

impl Number {
    pub const LARGEST: u16 = 65535;
}

impl Round {
    // Round Zero has n 0 and the setup's c0 and cf0.
    pub fn zero(setup: Setup) -> Round
        ensures { result ≡ zero_of setup }
    {
        Round {
            n: Number(0),
            c: setup.c0,
            cf: setup.cf0,
        }
    }

    // A round's numbers, any at all, tested whole and never narrowed first.
    #[tactic(auto, unfolding(crate::specs::Rounds::round_in_range))]
    pub fn numbers_in_range(setup: Setup, n: u32, c: u32, cf: u32) -> bool
        ensures { result ≡ round_in_range setup (round_of n c cf) }
    {
        n <= u32::from(Number::LARGEST)
            && c < u32::from(setup.coordinators)
            && some_racks(u32::from(setup.racks), cf)
            && (n != 0 || c == u32::from(setup.c0) && cf == u32::from(setup.cf0))
    }

    pub fn in_range(self, setup: Setup) -> bool
        ensures { result ≡ round_in_range setup self }
    {
        Round::numbers_in_range(
            setup,
            u32::from(self.n.0),
            u32::from(self.c),
            u32::from(self.cf),
        )
    }

    // How this round stands to the other. Not `PartialOrd`: its None would say less than a clash, which a
    // step answers with 6.
    #[tactic(auto, unfolding(crate::specs::Rounds::order_of))]
    pub fn compare(self, other: Round) -> Order
        ensures { result ≡ order_of self other }
    {
        if self.n.0 < other.n.0 {
            return Order::Below;
        }
        if other.n.0 < self.n.0 {
            return Order::Above;
        }
        if self.c < other.c {
            return Order::Below;
        }
        if other.c < self.c {
            return Order::Above;
        }
        if self.cf == other.cf {
            Order::Equal
        } else {
            Order::Clash
        }
    }
}
