// Kind 2.
use crate::Block;
use std::io;

fn base() -> Block {
    Block::of(2, 0).set(10, 1).set(13, 3)
}

pub(crate) fn cases(rt: &impl Print) -> io::Result<()> {
    // A good block.
    base().tell(rt)?;
    // n is 0.
    base().set(10, 0).tell(rt)?;
    // c is not the agent.
    base().set(12, 1).tell(rt)?;
    // No racks.
    base().set(13, 0).tell(rt)?;
    // A rack that does not exist.
    base().set(13, 4).tell(rt)?;
    Ok(())
}
