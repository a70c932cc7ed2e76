// Which kind a block is of: the one reader that takes a block of any of the eleven kinds.
//
// It refuses a wrong length, then a block that is good for no kind. The definition, specs/Known.antt,
// names each kind once; that a block is good for at most one of them is a theorem. What a block holds
// is for `blocks::read`.
#![tactic(auto)]

ghost use Rattle.std.specs.Prelude.{◌≡◌, cond};
ghost use Rattle.below.specs.Refusals.{number_of};
ghost use Rattle.blocks.specs.Kinds.{good};
ghost use Rattle.blocks.specs.Answers.{answer};
ghost use Rattle.kinds.specs.Known.{Told, kind_number};

use below::Refusal;
use blocks::{BLOCK, Body, Kind, read};
use records::{
    BoxRow, CoordinatorRow, Head, OneA, OneB, Propose, RackRow, ReaderRow, TwoA, TwoB, TwoS,
};

// The kind of these bodies, where the block is a good one of it.
fn kind_as<B: Body>(block: &[u8]) -> Result<Kind, Refusal>
    ensures refused { number_of result ≡ answer block.now (good B.kind block.now) }
    ensures named { kind_number result ≡ cond (good B.kind block.now) B.kind.number 0 }
{
    read::<B>(block)?;
    Ok(B::KIND)
}

// A match on the kind, as document 01 has it, so that a new kind cannot be left out.
pub fn kind_of(block: &[u8]) -> Result<Kind, Refusal>
    ensures { Told block.now (number_of result) (kind_number result) }
{
    Refusal::WrongLength.unless(block.len() == BLOCK)?;
    match Kind::of(block[2]) {
        Some(Kind::Propose) => kind_as::<Propose>(block),
        Some(Kind::OneA) => kind_as::<OneA>(block),
        Some(Kind::OneB) => kind_as::<OneB>(block),
        Some(Kind::TwoS) => kind_as::<TwoS>(block),
        Some(Kind::TwoA) => kind_as::<TwoA>(block),
        Some(Kind::TwoB) => kind_as::<TwoB>(block),
        Some(Kind::Head) => kind_as::<Head>(block),
        Some(Kind::Coordinator) => kind_as::<CoordinatorRow>(block),
        Some(Kind::Box) => kind_as::<BoxRow>(block),
        Some(Kind::Rack) => kind_as::<RackRow>(block),
        Some(Kind::Reader) => kind_as::<ReaderRow>(block),
        None => Err(Refusal::BadBlock),
    }
}
