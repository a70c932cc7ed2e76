// The hall over lent bytes: its blocks, and setup.
//
// Setup takes any lent bytes and any numbers: 1 for another length, 11 out of range, else all 118
// blocks are written, the unused ones zero. The hall's step is defined here, in specs/Steps.antt, and
// its code is in hall_step: demand 3 speaks of these definitions.
#![tactic(auto)]

mod fresh;
mod set_up;

pub use fresh::{BOXES_AT, COORDINATORS_AT, MESSAGES_AT, RACKS_AT, READERS_AT};
pub use set_up::{BLOCKS, HALL, setup};
