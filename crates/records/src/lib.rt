// The records that blocks hold: six messages, the head, and the rows of the four sorts of agent.
//
// Each record has its rules (document 01, 'Blocks') as a test: a good block holds a record that
// keeps them, and every step keeps them. What a record is written as is no business here, nor what
// a step makes of it: `Granted` is only the form of that.
#![tactic(auto)]

mod granted;
mod messages;
mod rows;
mod slots;
mod stamp;
mod votes;

pub use granted::Granted;
pub use messages::{OneA, OneB, Propose, TwoA, TwoB, TwoS};
pub use rows::{BOXES, BoxRow, CoordinatorRow, Head, RackRow, ReaderRow};
pub use slots::{Blank, Heard, Held, NO_ROUND};
pub use stamp::Stamp;
