// How two rounds stand to each other.
ghost use Rattle.std.specs.Prelude.{◌≡◌};
ghost use Rattle.rounds.specs.Rounds.{is_below, is_equal, is_above, is_clash, is_up_to};

#[derive(Clone, Copy, Debug, PartialEq, Eq)]
pub enum Order {
    Below,
    Equal,
    Above,
    // n and c agree and cf does not.
    Clash,
}

impl Order {
    pub fn is_below(self) -> bool
        ensures { result ≡ is_below self }
    {
        matches!(self, Order::Below)
    }

    pub fn is_equal(self) -> bool
        ensures { result ≡ is_equal self }
    {
        matches!(self, Order::Equal)
    }

    pub fn is_above(self) -> bool
        ensures { result ≡ is_above self }
    {
        matches!(self, Order::Above)
    }

    pub fn is_clash(self) -> bool
        ensures { result ≡ is_clash self }
    {
        matches!(self, Order::Clash)
    }

    // Not above, and no clash.
    pub fn is_up_to(self) -> bool
        ensures { result ≡ is_up_to self }
    {
        matches!(self, Order::Below | Order::Equal)
    }
}
