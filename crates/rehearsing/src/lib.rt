// A rehearsal: a hall played through line by line, in fixed memory.
//
// What the whole input prints is defined in specs/Rehearsals.antt, over its lines. The functions take
// the input in pieces of any size and keep between them the hall's bytes and a few numbers;
// proofs/InPieces.antt says that what they print is that text. Where the pieces come from and go to
// is the program's business.
#![tactic(auto)]

mod pages_out;
mod playing;
mod rehearsal;
mod turns;

pub use playing::{END_ROOM, end, play};
pub use rehearsal::{Played, Rehearsal, Stage};
