// The lent blocks: how many, each at its place, and the refusals before the list, each over all.
ghost use Rattle.std.specs.Prelude.{◌≡◌, ◌+◌, ◌*◌, ◌≤◌, length};
ghost use Rattle.below.specs.Refusals.{granted, number_of};
ghost use Rattle.blocks.specs.Frame.{block_size};
ghost use Rattle.book.specs.Book.{block_at, is_whole, is_good, is_in_place, is_reader, Judges, racks_of, blocks_refusal};

use below::Refusal;
use blocks::{BLOCK, Kind, read_stamp};
use kinds::kind_of;

pub const MOST_BLOCKS: usize = 64;

// Where a block says its kind and P.
const KIND_AT: usize = 2;

const RACKS_AT: usize = 3;

#[derive(Clone, Copy)]
struct Judged {
    good: bool,
    in_place: bool,
    readers: bool,
}

#[tactic(auto, using(crate::proofs::Places::part_block))]
pub(crate) fn block_at(blocks: &[u8], place: usize) -> &[u8]
    requires { block_size * (place + 1) ≤ length blocks.now }
    ensures { (result.now ≡ block_at blocks.now place) × (length result.now ≡ block_size) }
{
    let at = BLOCK * place;
    let end = at + BLOCK;
    &blocks[at..end]
}

fn is_whole(blocks: &[u8]) -> bool
    ensures { result ≡ is_whole blocks.now }
{
    blocks.len() % BLOCK == 0 && blocks.len() / BLOCK <= MOST_BLOCKS
}

#[tactic(auto, using(crate::proofs::Places::told_good))]
fn is_good(blocks: &[u8], place: usize) -> bool
    requires { block_size * (place + 1) ≤ length blocks.now }
    ensures { result ≡ is_good blocks.now place }
{
    kind_of(block_at(blocks, place)).is_ok()
}

#[tactic(auto, unfolding(crate::specs::Book::is_in_place))]
fn in_place(blocks: &[u8], place: usize) -> bool
    requires { block_size * (place + 1) ≤ length blocks.now }
    ensures { result ≡ is_in_place blocks.now place }
{
    let first = read_stamp(block_at(blocks, 0));
    let own = read_stamp(block_at(blocks, place));
    let same_reader = first.setup == own.setup && first.agent == own.agent;
    same_reader && usize::from(own.instance.0) == place
}

#[tactic(auto, unfolding(crate::specs::Book::is_reader))]
fn is_reader(blocks: &[u8], place: usize) -> bool
    requires { block_size * (place + 1) ≤ length blocks.now }
    ensures { result ≡ is_reader blocks.now place }
{
    block_at(blocks, place)[KIND_AT] == Kind::Reader.number()
}

// What holds of every block: one turn looks at all three. A block goes by its place, which is also the
// instance that it must say.
fn judge(blocks: &[u8], count: usize) -> Judged
    requires { block_size * count ≤ length blocks.now }
    ensures { Judges blocks.now count result.good result.in_place result.readers }
{
    let mut judged = Judged {
        good: true,
        in_place: true,
        readers: true,
    };
    for place in 0..count {
        judged.good &= is_good(blocks, place);
        judged.in_place &= in_place(blocks, place);
        judged.readers &= is_reader(blocks, place);
    }
    judged
}

#[tactic(auto, unfolding(crate::specs::Book::blocks_refusal))]
pub(crate) fn refusal_of(blocks: &[u8]) -> Result<(), Refusal>
    ensures { number_of result ≡ blocks_refusal blocks.now granted }
{
    Refusal::WrongLength.unless(is_whole(blocks))?;
    let all = judge(blocks, blocks.len() / BLOCK);
    Refusal::BadBlock.unless(all.good)?;
    Refusal::OtherHall.unless(all.in_place)?;
    Refusal::WrongMessage.unless(all.readers)
}

// P, as the first block says; 0 where there is none.
#[tactic(auto, using(crate::proofs::Places::racks_byte, crate::proofs::Places::racks_none))]
pub(crate) fn racks_of(blocks: &[u8]) -> usize
    ensures { result ≡ racks_of blocks.now }
{
    match blocks.get(RACKS_AT) {
        Some(&racks) => usize::from(racks),
        None => 0,
    }
}
