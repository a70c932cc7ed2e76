// Learn.
ghost use Rattle.records.specs.Answers.{noted_of};
ghost use Rattle.readers.specs.Learning.{Learns};

use crate::counting::counted;
use below::Refusal;
use records::ReaderRow;
use rounds::{Round, Setup};

// 13 learn (round).
#[tactic(auto, using(crate::proofs::CountingLearns::learns_of))]
pub fn learn(setup: Setup, row: ReaderRow, round: Round) -> Result<ReaderRow, Refusal>
    ensures { Learns setup row round (noted_of row result) }
{
    counted(setup, row, round)
}
