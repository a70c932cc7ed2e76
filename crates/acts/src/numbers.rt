// The numbers that a step may name, in range: offer a reading, start n and cf, learn a round.
use pages::Reading;
use rounds::Round;

// Those that a step doesn't name are any at all.
#[derive(Clone, Copy)]
pub struct Numbers {
    pub round: Round,
    pub reading: Reading,
}
