// The steps of a box on its row: join, take page, take reading.
//
// Each function takes the box's row and the message that the step names and gives the refusal (5 to
// 9), or the new row and the message sent, exactly as the definition of that step in specs/ says. The
// rules of rows and messages are the records' business, blocks and places the hall's.
#![tactic(auto)]

mod steps;

pub use steps::{join, take_page, take_reading};
