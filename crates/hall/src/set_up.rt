// Setup: a lent hall is written anew, block by block.
ghost use Rattle.std.specs.Prelude.{◌≡◌, length};
ghost use Rattle.below.specs.Refusals.{number_of};
ghost use Rattle.rounds.specs.Setups.{setup_of};
ghost use Rattle.hall.specs.Halls.{hall_size, fresh_hall, Sets};

use crate::fresh::fresh_block;
use below::Refusal;
use blocks::BLOCK;
use rounds::{Instance, Setup};

// Head, 4 coordinators, 5 boxes, 8 racks, 4 readers, 96 messages.
pub const BLOCKS: usize = 118;

pub const HALL: usize = 60416;

// A block goes by its place, which says what it is a block of.
fn fill(hall: &mut [u8], instance: Instance, setup: Setup)
    requires { length hall.old ≡ hall_size }
    ensures { hall.new ≡ fresh_hall instance.0 setup }
{
    for place in 0..BLOCKS {
        let at = place * BLOCK;
        let end = at + BLOCK;
        fresh_block(&mut hall[at..end], instance, setup, place);
    }
}

// Any lent bytes and any numbers: 1 for another length, 11 out of range, else all blocks are written. The
// numbers come one by one, as C gives them, and are cut once they are known to be in range. Both tests are
// worked out, `&`, so that what they say is known in one piece where the numbers are cut.
#[tactic(auto, unfolding(crate::specs::Halls::setup_refusal, crate::specs::Halls::setup_after))]
pub fn setup(
    hall: &mut [u8],
    instance: u32,
    racks: u32,
    boxes: u32,
    coordinators: u32,
    readers: u32,
    c0: u32,
    cf0: u32,
) -> Result<(), Refusal>
    ensures { Sets hall.old hall.new instance (setup_of racks boxes coordinators readers c0 cf0) (number_of result) }
{
    Refusal::WrongLength.unless(hall.len() == HALL)?;
    let in_range = (instance <= u32::from(Instance::LARGEST))
        & Setup::numbers_in_range(racks, boxes, coordinators, readers, c0, cf0);
    Refusal::OutOfRange.unless(in_range)?;
    let setup = Setup {
        racks: racks as u8,
        boxes: boxes as u8,
        coordinators: coordinators as u8,
        readers: readers as u8,
        c0: c0 as u8,
        cf0: cf0 as u8,
    };
    fill(hall, Instance(instance as u16), setup);
    Ok(())
}
