// The steps of a reader on its row: note vote, note blank, learn.
//
// Each function takes the reader's row and the message or round that the step names and gives the
// refusal (5 to 9) or the new row, exactly as the definition of that step in specs/ says; learn's
// contract is document 01's property over majorities, and the code counts. The rules of rows and
// messages are the records' business, blocks and places the hall's.
#![tactic(auto)]

mod counting;
mod learning;
mod notes;

pub use learning::learn;
pub use notes::{note_blank, note_vote};
