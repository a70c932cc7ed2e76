// Kind 19.
use crate::Block;
use std::io;

fn base() -> Block {
    Block::of(19, 0).set(13, 3)
}

pub(crate) fn cases(rt: &impl Print) -> io::Result<()> {
    // prnd Zero, pval none.
    base().tell(rt)?;
    // A reading.
    base().set(14, 2).set(17, 1).tell(rt)?;
    // n 0 with another c.
    base().set(12, 1).tell(rt)?;
    // n 0 with another cf.
    base().set(13, 1).tell(rt)?;
    // Agent 2 of 2.
    base().set(9, 2).tell(rt)?;
    Ok(())
}
