// What a step makes of a row's block and a message's block: the thirteen acts, by code.
//
// An act reads the blocks that its step names, gives the refusal (2, 3 and 5 to 9, in document 01's
// order), and where it is granted writes the row's block after and the message sent into two buffers
// of the caller's; where it is refused they stay. The hall's step and the C step both go by it; what
// comes before and after is theirs. They have looked at the lengths, so an act asks for blocks of 512
// bytes, and hand on what they found out of range as `late`, which stands between the two refusals 2.
// They go by `perform`; `act` is for whoever has found a number of its own, any byte.
#![tactic(auto)]

mod acts;
mod by_number;
mod code;
mod named;
mod numbers;
mod shapes;
mod step;

pub use acts::perform;
pub use by_number::{Acted, act};
pub use code::Code;
pub use numbers::Numbers;
pub use step::Step;
