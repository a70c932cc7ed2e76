// Blocks: how every record of the eleven kinds is read and written as 512 bytes (document 01,
// 'Blocks').
//
// A kind is one line of specs/Messages.antt or specs/Rows.antt: its number, the codec of its body, how
// many agents of its sort a hall has, and its rules. What makes a block good, and how a record is
// written, is said once in specs/Kinds.antt for any kind; so reading and writing are one function
// each, for any record that is a `Body`. A reader takes any bytes, a writer any record and any bytes.
// Both refuse a wrong length, then what fails its check or its rules; a refused writer writes nothing.
#![tactic(auto)]

mod body;
mod box_row;
mod coordinator;
mod frame;
mod head;
mod kind;
mod one_a;
mod one_b;
mod propose;
mod rack;
mod reader;
mod two_a;
mod two_b;
mod two_s;

pub use body::{Body, Stamped, put, read, write};
pub use frame::{BLOCK, CHECKS, framed, put_stamp, read_stamp, seal};
pub use kind::Kind;
