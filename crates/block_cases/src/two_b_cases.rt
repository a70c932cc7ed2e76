// Kind 6.
use crate::Block;
use std::io;

fn base() -> Block {
    Block::of(6, 0).set(10, 1).set(13, 3).set(14, 2).set(17, 1)
}

pub(crate) fn cases(rt: &impl Print) -> io::Result<()> {
    // A good block.
    base().tell(rt)?;
    // Reading 0.
    base().set(17, 0).tell(rt)?;
    // No reading on the page.
    base().set(14, 1).set(17, 0).tell(rt)?;
    // A line of rack 2 of 2.
    base().set(24, 1).tell(rt)?;
    Ok(())
}
