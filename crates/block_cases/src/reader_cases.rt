// Kind 20.
use crate::Block;
use std::io;

fn base() -> Block {
    Block::of(20, 0)
}

pub(crate) fn cases(rt: &impl Print) -> io::Result<()> {
    // Nothing held.
    base().tell(rt)?;
    // Agent 1 of 1.
    base().set(9, 1).tell(rt)?;
    // One Nil line of two.
    base().set(10, 1).tell(rt)?;
    // All Nil.
    base().set(10, 1).set(15, 1).tell(rt)?;
    // Box 0 held.
    base()
        .set(50, 1)
        .set(51, 1)
        .set(54, 3)
        .set(55, 2)
        .set(58, 1)
        .tell(rt)?;
    // A held page without a reading.
    base().set(50, 1).set(51, 1).set(54, 3).set(55, 1).tell(rt)?;
    // Box 2 of 3.
    base()
        .set(140, 1)
        .set(141, 1)
        .set(144, 3)
        .set(145, 2)
        .set(148, 1)
        .tell(rt)?;
    // Box 3 of 3.
    base()
        .set(185, 1)
        .set(186, 1)
        .set(189, 3)
        .set(190, 2)
        .set(193, 1)
        .tell(rt)?;
    // Rack 1 blank.
    base().set(280, 1).set(281, 1).set(284, 3).tell(rt)?;
    // Rack 2 of 2 blank.
    base().set(285, 1).set(286, 1).set(289, 3).tell(rt)?;
    // A round under flag 0.
    base().set(276, 1).tell(rt)?;
    // Flag 2.
    base().set(275, 2).tell(rt)?;
    Ok(())
}
