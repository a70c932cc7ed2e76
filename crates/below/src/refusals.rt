// The refusals, by document 01's numbers, and how they follow each other: each is given exactly when
// its condition holds and none before it.
ghost use Rattle.std.specs.Prelude.{◌≡◌, cond};
ghost use Rattle.below.specs.Refusals.{number, number_of};

#[derive(Clone, Copy, Debug, PartialEq, Eq)]
pub enum Refusal {
    WrongLength,
    BadBlock,
    OtherHall,
    NoSuchStep,
    WrongMessage,
    WrongRound,
    AlreadyDone,
    NoMajority,
    LinesClash,
    PostFull,
    OutOfRange,
}

impl Refusal {
    // Document 01's number. Not `From`: `.number()` says which number.
    pub fn number(self) -> u8
        ensures { result ≡ number self }
    {
        match self {
            Refusal::WrongLength => 1,
            Refusal::BadBlock => 2,
            Refusal::OtherHall => 3,
            Refusal::NoSuchStep => 4,
            Refusal::WrongMessage => 5,
            Refusal::WrongRound => 6,
            Refusal::AlreadyDone => 7,
            Refusal::NoMajority => 8,
            Refusal::LinesClash => 9,
            Refusal::PostFull => 10,
            Refusal::OutOfRange => 11,
        }
    }

    // This refusal where the condition fails, and on to what follows where it holds.
    pub fn unless(self, holds: bool) -> Result<(), Refusal>
        ensures { result ≡ cond holds (Ok tt) (Err self) }
    {
        if holds { Ok(()) } else { Err(self) }
    }
}

// Document 01's number of an answer: 0 where it is granted. No `From`: Result and u32 are std's.
pub fn number_of(answer: Result<(), Refusal>) -> u32
    ensures { result ≡ number_of answer }
{
    match answer {
        Ok(()) => 0,
        Err(refusal) => u32::from(refusal.number()),
    }
}
