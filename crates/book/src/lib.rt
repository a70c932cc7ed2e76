// The book: the list of readings out of the blocks of one reader, instance by instance.
//
// It takes any lent bytes and any lent row of numbers. What stands in the way is answered in
// document 01's order, and then nothing lent is changed. The list is walked once, into room of its
// own, since whether it fits the lent row is known only at its end. How a block stands in bytes,
// and what makes it good, is no business of this crate.
#![tactic(auto)]

mod judging;
mod walking;

ghost use Rattle.below.specs.Refusals.{number_of, value_or};
ghost use Rattle.book.specs.Book.{Books};

use crate::judging::{racks_of, refusal_of};
use crate::walking::{LONGEST, walk};
use below::Refusal;
use blocks::BLOCK;

// The answer is how many numbers of the lent row are the list.
pub fn book(blocks: &[u8], list: &mut [u32]) -> Result<u16, Refusal>
    ensures { Books blocks.now list.old list.new (number_of result) (value_or 0 result) }
{
    refusal_of(blocks)?;
    let mut readings = [0u32; LONGEST];
    let racks = racks_of(blocks);
    let count = walk(blocks, blocks.len() / BLOCK, racks, &mut readings);
    Refusal::PostFull.unless(count <= list.len())?;
    list[..count].copy_from_slice(&readings[..count]);
    // At most 512, so nothing is lost.
    Ok(count as u16)
}
