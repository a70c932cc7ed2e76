// The steps of a coordinator on its row: start, hear, open.
//
// Each function takes the coordinator's row and the message or numbers that the step names and gives
// the refusal (5 to 9), or the new row and the message sent, exactly as the definition of that step in
// specs/ says. The rules of rows and messages are the records' business, blocks and places the
// hall's.
#![tactic(auto)]

mod heard;
mod joined;
mod steps;

pub use steps::{hear, open, start};
