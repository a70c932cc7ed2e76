// Which step: document 01's thirteen.
ghost use Rattle.std.specs.Prelude.{◌≡◌};
ghost use Rattle.acts.specs.Codes.{code_number, code_at};

#[derive(Clone, Copy, Debug, PartialEq, Eq)]
pub enum Code {
    Offer,
    Start,
    Join,
    Hear,
    Open,
    Prepare,
    Fast,
    Blank,
    TakePage,
    TakeReading,
    NoteVote,
    NoteBlank,
    Learn,
}

impl Code {
    // The step with this number, any at all. Not `TryFrom`: that no step has it is 4 where a step is
    // asked for, which the caller says.
    #[tactic(auto, unfolding(crate::specs::Codes::code_at))]
    pub fn of(number: u32) -> Option<Code>
        ensures { result ≡ code_at number }
    {
        match number {
            1 => Some(Code::Offer),
            2 => Some(Code::Start),
            3 => Some(Code::Join),
            4 => Some(Code::Hear),
            5 => Some(Code::Open),
            6 => Some(Code::Prepare),
            7 => Some(Code::Fast),
            8 => Some(Code::Blank),
            9 => Some(Code::TakePage),
            10 => Some(Code::TakeReading),
            11 => Some(Code::NoteVote),
            12 => Some(Code::NoteBlank),
            13 => Some(Code::Learn),
            _ => None,
        }
    }
}
