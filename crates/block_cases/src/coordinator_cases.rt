// Kind 17.
use crate::Block;
use std::io;

fn base() -> Block {
    Block::of(17, 1)
        .set(10, 1)
        .set(12, 1)
        .set(13, 3)
        .set(55, 1)
        .set(59, 3)
}

pub(crate) fn cases(rt: &impl Print) -> io::Result<()> {
    // Box 0 heard, no vote.
    base().tell(rt)?;
    // c is not the agent.
    base().set(12, 0).tell(rt)?;
    // Box 2 of 3.
    base().set(147, 1).set(151, 3).tell(rt)?;
    // Box 3 of 3.
    base().set(193, 1).set(197, 3).tell(rt)?;
    // Something in an empty slot.
    base().set(105, 3).tell(rt)?;
    // A vote of a round below.
    base().set(56, 1).set(60, 1).set(61, 2).set(64, 1).tell(rt)?;
    // Of an equal round.
    base()
        .set(56, 1)
        .set(58, 1)
        .set(60, 1)
        .set(61, 2)
        .set(64, 1)
        .tell(rt)?;
    // cval with one line of two.
    base().set(14, 1).set(15, 2).set(18, 1).tell(rt)?;
    // cval complete and valued.
    base().set(14, 1).set(15, 2).set(18, 1).set(20, 1).tell(rt)?;
    // A page where cval is none.
    base().set(15, 1).tell(rt)?;
    // Heard under crnd Zero.
    base().set(10, 0).set(12, 0).tell(rt)?;
    // Nothing heard under crnd Zero.
    base().set(10, 0).set(12, 0).set(55, 0).set(59, 0).tell(rt)?;
    Ok(())
}
