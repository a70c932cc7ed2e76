// The steps of a rack on its row: offer, prepare, fast, blank.
//
// Each function takes the rack's row and the message that the step names and gives the refusal (5 to
// 9), or the new row and the message sent, exactly as the definition of that step in specs/ says. The
// rules of rows and messages are the records' business, blocks and places the hall's.
#![tactic(auto)]

mod steps;

pub use steps::{blank, fast, offer, prepare};
