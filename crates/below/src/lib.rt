// What holds of all numbers below n, of some of them, of how many; and the row f 0, f 1, .. of n
// elements. Racks, boxes and slots are numbered from 0, so every count, test and page of the
// library is said by these few definitions, with their laws in proofs/. The code is only the refusals,
// by which every step answers.
#![tactic(auto)]

mod refusals;

pub use refusals::{Refusal, number_of};
