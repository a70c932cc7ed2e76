// Cases on both sides of each rule of document 01, 'Blocks': a good block of each kind, then the
// same block with a field changed and the check words redone, so that one rule is broken. Each line
// printed is the answer of `kind_of`: the refusal, then the kind. What is expected, in the file
// stdout, was worked out from the document. The hall has instance 7, 2 racks, 3 boxes, 2
// coordinators, 1 reader, c0 0 and both racks in cf0.
//
// A block is changed through `set`, which has no effect past its end.
#![tactic(auto)]

mod box_cases;
mod coordinator_cases;
mod head_cases;
mod one_a_cases;
mod one_b_cases;
mod propose_cases;
mod rack_cases;
mod reader_cases;
mod two_a_cases;
mod two_b_cases;
mod two_s_cases;

use blocks::{BLOCK, CHECKS};
use std::io;

#[derive(Clone, Copy)]
pub struct Block {
    pub bytes: [u8; BLOCK],
}

fn tell(rt: &impl Print, block: &[u8]) -> io::Result<()> {
    match kinds::kind_of(block) {
        Ok(kind) => println!(rt; "0 {}", kind.number()),
        Err(refusal) => println!(rt; "{} 0", refusal.number()),
    }
}

// The check words of what the block holds now.
fn redo(block: &mut [u8]) {
    if block.len() == BLOCK {
        let sums = words::sums_of(block);
        words::put_u32(block, CHECKS, sums.first);
        words::put_u32(block, CHECKS + 4, sums.second);
    }
}

impl Block {
    // A block of this hall with this kind and agent, and no body yet. The kind is its byte, as the document
    // writes it; some cases need a byte that no kind has.
    pub(crate) fn of(kind: u8, agent: u8) -> Block {
        let bytes = [0u8; BLOCK];
        let block = Block { bytes };
        block
            .set(0, 7)
            .set(2, kind)
            .set(3, 2)
            .set(4, 3)
            .set(5, 2)
            .set(6, 1)
            .set(8, 3)
            .set(9, agent)
    }

    pub(crate) fn set(mut self, at: usize, value: u8) -> Block {
        if at < BLOCK {
            self.bytes[at] = value;
        }
        self
    }

    // The check words redone, and the answer printed.
    pub(crate) fn tell(self, rt: &impl Print) -> io::Result<()> {
        let mut bytes = self.bytes;
        redo(&mut bytes);
        tell(rt, &bytes)
    }
}

fn main(rt: HostRuntime) -> io::Result<()> {
    let bytes = [0u8; BLOCK];
    // One byte short.
    tell(&rt, &bytes[..511])?;
    // All zero, and all zero with check words left out.
    tell(&rt, &bytes)?;
    let good = Block::of(16, 0);
    let unsealed = good.bytes;
    tell(&rt, &unsealed)?;
    propose_cases::cases(&rt)?;
    one_a_cases::cases(&rt)?;
    one_b_cases::cases(&rt)?;
    two_s_cases::cases(&rt)?;
    two_a_cases::cases(&rt)?;
    two_b_cases::cases(&rt)?;
    head_cases::cases(&rt)?;
    coordinator_cases::cases(&rt)?;
    box_cases::cases(&rt)?;
    rack_cases::cases(&rt)?;
    reader_cases::cases(&rt)
}
