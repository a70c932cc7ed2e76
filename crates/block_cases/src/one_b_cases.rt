// Kind 3.
use crate::Block;
use std::io;

fn base() -> Block {
    Block::of(3, 2)
        .set(10, 2)
        .set(12, 1)
        .set(13, 3)
        .set(14, 1)
        .set(17, 3)
        .set(18, 1)
        .set(19, 2)
        .set(22, 1)
        .set(24, 1)
}

pub(crate) fn cases(rt: &impl Print) -> io::Result<()> {
    // A good block.
    base().tell(rt)?;
    // Agent 3 of 3 boxes.
    base().set(9, 3).tell(rt)?;
    // vrnd (2, 0), below (2, 1).
    base().set(14, 2).tell(rt)?;
    // vrnd equal.
    base().set(14, 2).set(16, 1).tell(rt)?;
    // Flag 2.
    base().set(18, 2).tell(rt)?;
    // A line of rack 2 of 2.
    base().set(29, 1).tell(rt)?;
    // Nil with a reading.
    base().set(25, 1).tell(rt)?;
    // No reading on the page.
    base().set(19, 1).set(22, 0).tell(rt)?;
    // No vote, vrnd not Zero.
    base().set(18, 0).set(19, 0).set(22, 0).set(24, 0).tell(rt)?;
    // No vote, vrnd Zero.
    base()
        .set(18, 0)
        .set(19, 0)
        .set(22, 0)
        .set(24, 0)
        .set(14, 0)
        .tell(rt)?;
    // A page under flag 0.
    base().set(18, 0).set(19, 0).set(22, 0).set(14, 0).tell(rt)?;
    Ok(())
}
