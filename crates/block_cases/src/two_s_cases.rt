// Kind 4.
use crate::Block;
use std::io;

fn base() -> Block {
    Block::of(4, 1).set(10, 1).set(12, 1).set(13, 3)
}

pub(crate) fn cases(rt: &impl Print) -> io::Result<()> {
    // The empty page.
    base().tell(rt)?;
    // One line of two.
    base().set(14, 2).set(17, 1).tell(rt)?;
    // Complete and valued.
    base().set(14, 2).set(17, 1).set(19, 1).tell(rt)?;
    // Complete, all Nil.
    base().set(14, 1).set(19, 1).tell(rt)?;
    // c is not the agent.
    base().set(12, 0).tell(rt)?;
    Ok(())
}
