// Bytes and numbers: little-endian numbers at a place of lent bytes, runs of zeros, and the two
// check words of a block.
//
// All writing is one operation, `splice` of specs/Bytes.antt: what stands before and after the
// written bytes stays. Every function asks that its place lies in the bytes. Callers have looked at
// the length of their block once, before the first number is read, and each place is a constant of
// the layout, so the demand is shown there and costs no test here. What the bytes mean is no
// business of this crate.
#![tactic(auto)]

mod numbers;
mod sums;
mod zeros;

pub use numbers::{get_u16, get_u32, put_u8, put_u16, put_u32};
pub use sums::{Sums, WORDS, sums_of};
pub use zeros::{put_zeros, zero_bytes, zero_words};
