// The setup of a hall, instance and round numbers, rounds and their order, majorities.
//
// Instance numbers and round numbers are types of their own, so that neither can stand where the
// other is meant. Every function takes any value of its type; each contract is an equation with
// the definition of that name in specs/. Who starts a round and who joins it is no business here.
#![tactic(auto)]

mod order;
mod round;
mod setup;

pub use order::Order;
pub use round::{Number, Round};
pub use setup::{Instance, Setup, some_racks};
