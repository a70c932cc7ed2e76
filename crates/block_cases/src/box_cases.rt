// Kind 18.
use crate::Block;
use std::io;

fn base() -> Block {
    Block::of(18, 1)
        .set(10, 2)
        .set(12, 1)
        .set(13, 3)
        .set(14, 1)
        .set(17, 3)
        .set(18, 1)
        .set(19, 2)
        .set(22, 1)
        .set(24, 1)
}

pub(crate) fn cases(rt: &impl Print) -> io::Result<()> {
    // A good block.
    base().tell(rt)?;
    // 9 racks.
    base().set(3, 9).tell(rt)?;
    // 6 boxes.
    base().set(4, 6).tell(rt)?;
    // 5 coordinators.
    base().set(5, 5).tell(rt)?;
    // No readers.
    base().set(6, 0).tell(rt)?;
    // 5 readers.
    base().set(6, 5).tell(rt)?;
    // c0 is no coordinator.
    base().set(7, 2).tell(rt)?;
    // cf0 is empty.
    base().set(8, 0).tell(rt)?;
    // cf0 has rack 2 of 2.
    base().set(8, 4).tell(rt)?;
    // Kind 7.
    base().set(2, 7).tell(rt)?;
    // Instance 65,535.
    base().set(0, 255).set(1, 255).tell(rt)?;
    // vrnd above rnd.
    base().set(14, 3).tell(rt)?;
    // vrnd equal.
    base().set(14, 2).set(16, 1).tell(rt)?;
    // vrnd equal but for cf.
    base().set(14, 2).set(16, 1).set(17, 1).tell(rt)?;
    // c 2 of 2.
    base().set(12, 2).tell(rt)?;
    // State 3.
    base().set(24, 3).tell(rt)?;
    // The last word before the check words.
    base().set(503, 1).tell(rt)?;
    Ok(())
}
