// The source's v-mapping: per rack absent, Nil (blank) or a reading.
//
// Lines, pages and votes by value, sets of racks as bits, and every operation of document 01 on
// them. Each function takes any value of its type, and its contract is an equation with the
// definition of that name in specs/. The algebra stands in proofs/. What a page is written as, who
// votes for it and in which round is no business of this crate.
#![tactic(auto)]

mod line;
mod page;
mod racks;

pub use line::{Line, Mark, Reading};
pub use page::{Page, Vote};
pub use racks::{RACKS, below_all, has, is_outside, outside};
