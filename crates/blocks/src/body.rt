// A record as the body of a block: what is its own, and reading and writing for any of them.
ghost use Rattle.std.specs.Prelude.{ℕ, ◌≡◌, ◌+◌, length};
ghost use Rattle.below.specs.Refusals.{number_of};
ghost use Rattle.words.specs.Bytes.{Spliced};
ghost use Rattle.fields.specs.Codecs.{Got};
ghost use Rattle.blocks.specs.Frame.{block_size, body_at};
ghost use Rattle.blocks.specs.declared.kind.Kind.{Kind};
ghost use Rattle.blocks.specs.Kinds.{Kind as KindOf, encode};
ghost use Rattle.blocks.specs.Numbers.{number};
ghost use Rattle.blocks.specs.Proper.{Proper};
ghost use Rattle.blocks.specs.Answers.{Reads, Writes, stamp_in, body_in};

use crate::frame::{BLOCK, framed, put_stamp, read_stamp, seal};
use crate::kind::Kind;
use below::Refusal;
use fields::Read;
use records::Stamp;
use rounds::Setup;

pub trait Body: Copy {
    // What document 01 says of its kind, and which of its values fit their bytes.
    ghost kind: { KindOf Self };

    ghost Fits: { Self → Type 0 };

    ghost KIND: { Kind };

    const KIND: Kind;

    // Where the body ends.
    ghost END: { ℕ };

    const END: usize;

    // How many agents of its sort a hall has.
    fn agents(setup: Setup) -> u8
        ensures { result ≡ kind.agents setup };

    fn keeps(self, setup: Setup, agent: u8) -> bool
        ensures { result ≡ kind.rules setup agent self };

    fn read(block: &[u8]) -> Read<Self>
        requires { length block.now ≡ block_size }
        ensures { Got kind.body block.now body_at result.value result.exact };

    fn put(self, block: &mut [u8])
        requires { length block.old ≡ block_size }
        ensures { Spliced body_at (kind.body.put self) block.old block.new };

    ghost proper: { Proper kind Fits };

    ghost kind_is: { number KIND ≡ kind.number };

    ghost end_is: { END ≡ body_at + kind.body.size };
}

// What a good block holds.
#[derive(Clone, Copy)]
pub struct Stamped<B> {
    pub stamp: Stamp,
    pub body: B,
}

// The block is lent as a slice of any length, for a wrong length has an answer of its own.
//
// The kind first, for most blocks that are not what was named are of another one; then the record's
// bytes and rules; the frame last, whose sums take longest.
pub fn read<B: Body>(block: &[u8]) -> Result<Stamped<B>, Refusal>
    ensures { Reads B.kind block.now (number_of result) (stamp_in B.kind result) (body_in B.kind result) }
{
    Refusal::WrongLength.unless(block.len() == BLOCK)?;
    Refusal::BadBlock.unless(block[2] == B::KIND.number())?;
    let stamp = read_stamp(block);
    let read = B::read(block);
    let rules = stamp.rules(B::agents(stamp.setup)) & read.value.keeps(stamp.setup, stamp.agent);
    Refusal::BadBlock.unless(read.exact & rules)?;
    Refusal::BadBlock.unless(framed(block, B::KIND.number(), B::END))?;
    Ok(Stamped {
        stamp,
        body: read.value,
    })
}

// The writer where length and rules are known to be right: a granted step's row and message keep the
// rules, and need no test.
pub fn put<B: Body>(block: &mut [u8], stamp: Stamp, body: B)
    requires { length block.old ≡ block_size }
    ensures { block.new ≡ encode B.kind stamp body }
{
    put_stamp(block, B::KIND.number(), stamp);
    body.put(block);
    seal(block, B::END);
}

pub fn write<B: Body>(block: &mut [u8], stamp: Stamp, body: B) -> Result<(), Refusal>
    ensures { Writes B.kind stamp body block.old block.new (number_of result) }
{
    Refusal::WrongLength.unless(block.len() == BLOCK)?;
    let rules = stamp.rules(B::agents(stamp.setup)) & body.keeps(stamp.setup, stamp.agent);
    Refusal::BadBlock.unless(rules)?;
    put(block, stamp, body);
    Ok(())
}
