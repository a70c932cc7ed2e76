// Kind 1.
use crate::Block;
use std::io;

fn base() -> Block {
    Block::of(1, 1).set(12, 1)
}

pub(crate) fn cases(rt: &impl Print) -> io::Result<()> {
    // A good block.
    base().tell(rt)?;
    // Agent 2 of 2 racks.
    base().set(9, 2).tell(rt)?;
    // Something behind the body.
    base().set(14, 1).tell(rt)?;
    // Reading 65,535.
    base().set(10, 255).set(11, 255).set(12, 0).tell(rt)?;
    Ok(())
}
