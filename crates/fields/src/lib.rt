// The fields of a block: rounds, readings, lines, pages, votes and slots, at a place of lent bytes.
//
// How each stands in bytes is a codec of specs/Layout.antt, joined from numbers. Reading gives the
// value and whether its bytes are exactly those that writing it gives (a flag 0 or 1, a state 0 to
// 2, no reading where the state has none). Every field asks that it lies in the bytes: callers look
// at a block's length once, and a field's place is a constant. Which fields a kind of block has, and
// the rules of its record, are no business of this crate.
#![tactic(auto)]

mod array;
mod basic;
mod field;
mod lines;
mod slots;

pub use array::{Slot, put_all, read_all};
pub use field::{Field, Read};
