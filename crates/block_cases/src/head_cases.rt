// Kind 16.
use crate::Block;
use std::io;

fn base() -> Block {
    Block::of(16, 0).set(10, 96)
}

pub(crate) fn cases(rt: &impl Print) -> io::Result<()> {
    // 96 messages.
    base().tell(rt)?;
    // 97.
    base().set(10, 97).tell(rt)?;
    // None.
    base().set(10, 0).tell(rt)?;
    // Agent 1.
    base().set(9, 1).tell(rt)?;
    Ok(())
}
