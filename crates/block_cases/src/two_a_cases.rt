// Kind 5.
use crate::Block;
use std::io;

fn base() -> Block {
    Block::of(5, 1).set(10, 1).set(13, 3).set(14, 1)
}

pub(crate) fn cases(rt: &impl Print) -> io::Result<()> {
    // Nil.
    base().tell(rt)?;
    // A reading.
    base().set(14, 2).set(17, 1).tell(rt)?;
    // Absent.
    base().set(14, 0).tell(rt)?;
    // State 3.
    base().set(14, 3).tell(rt)?;
    // Rack 1 is not in cf.
    base().set(13, 1).tell(rt)?;
    // Nil with a reading.
    base().set(15, 1).tell(rt)?;
    Ok(())
}
