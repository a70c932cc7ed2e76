// What stands around the body of every block: instance, kind, setup and agent before it, zeros and
// the two check words behind it.
//
// Every function asks for a block of 512 bytes: their callers have looked at the length first.
ghost use Rattle.std.specs.Prelude.{◌≡◌, ◌+◌, ◌-◌, ◌≤◌, length};
ghost use Rattle.words.specs.Bytes.{Spliced};
ghost use Rattle.blocks.specs.Frame.{block_size, words_end, setup_bytes, stamp_as, framed, Sealed};

use records::Stamp;
use rounds::{Instance, Setup};

pub const BLOCK: usize = 512;

// Where the body begins.
pub const BODY: usize = 10;

// Where the check words stand.
pub const CHECKS: usize = 504;

fn read_setup(block: &[u8]) -> Setup
    requires { length block.now ≡ block_size }
    ensures { result ≡ ((stamp_as 0).get block.now 0).setup }
{
    Setup {
        racks: block[3],
        boxes: block[4],
        coordinators: block[5],
        readers: block[6],
        c0: block[7],
        cf0: block[8],
    }
}

pub fn read_stamp(block: &[u8]) -> Stamp
    requires { length block.now ≡ block_size }
    ensures { result ≡ (stamp_as 0).get block.now 0 }
{
    Stamp {
        instance: Instance(words::get_u16(block, 0)),
        setup: read_setup(block),
        agent: block[9],
    }
}

fn put_setup(block: &mut [u8], setup: Setup)
    requires { length block.old ≡ block_size }
    ensures { Spliced 3 (setup_bytes setup) block.old block.new }
{
    words::put_u8(block, 3, setup.racks);
    words::put_u8(block, 4, setup.boxes);
    words::put_u8(block, 5, setup.coordinators);
    words::put_u8(block, 6, setup.readers);
    words::put_u8(block, 7, setup.c0);
    words::put_u8(block, 8, setup.cf0);
}

// The kind is a number here and in `framed`: both promise their clause of any byte.
pub fn put_stamp(block: &mut [u8], kind: u8, stamp: Stamp)
    requires { length block.old ≡ block_size }
    ensures { Spliced 0 ((stamp_as kind).put stamp) block.old block.new }
{
    words::put_u16(block, 0, stamp.instance.0);
    words::put_u8(block, 2, kind);
    put_setup(block, stamp.setup);
    words::put_u8(block, 9, stamp.agent);
}

// Whether a block is of this kind, has zeros from the body's end on, and its check words are right. The
// kind first: most blocks that are not what was named are of another kind.
pub fn framed(block: &[u8], kind: u8, end: usize) -> bool
    requires { (length block.now ≡ block_size) × (end ≤ words_end) }
    ensures { result ≡ framed kind end block.now }
{
    if block[2] != kind {
        return false;
    }
    let rest = CHECKS - end;
    let odd = rest % 4;
    let zero = words::zero_bytes(block, end, odd) & words::zero_words(block, end + odd, rest / 4);
    let sums = words::sums_of(block);
    let first = words::get_u32(block, CHECKS) == sums.first;
    let second = words::get_u32(block, CHECKS + 4) == sums.second;
    zero & (first & second)
}

// Zeros from the body's end on, then the check words.
pub fn seal(block: &mut [u8], end: usize)
    requires { (length block.old ≡ block_size) × (end ≤ words_end) }
    ensures { Sealed end block.old block.new }
{
    words::put_zeros(block, end, CHECKS - end);
    let sums = words::sums_of(block);
    words::put_u32(block, CHECKS, sums.first);
    words::put_u32(block, CHECKS + 4, sums.second);
}
