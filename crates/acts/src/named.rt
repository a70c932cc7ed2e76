// The blocks that a step names, and the refusals that come of them before the step itself is looked at:
// 2, what the caller found out of range, 2, 3 and 5.
//
// Each block is read as the kind that the step names. Only one that is not good so is looked at again,
// for the difference between a bad block and one of another kind.
ghost use Rattle.std.specs.Prelude.{◌≡◌, ◌||◌, length, IfOk};
ghost use Rattle.below.specs.Refusals.{unless, bad_block, number_of};
ghost use Rattle.blocks.specs.Frame.{block_size};
ghost use Rattle.blocks.specs.Kinds.{good};
ghost use Rattle.kinds.specs.Known.{known};
ghost use Rattle.acts.specs.Named.{same_hall, own_row, row_found, both_found};
ghost use Rattle.acts.specs.Shapes.{held_by};

use below::Refusal;
use blocks::{Body, Stamped, read, read_stamp};
use kinds::kind_of;
use records::Stamp;

// A row's block and a message's, any block of the post where the step names none; whose they must be,
// and what the caller found out of range.
#[derive(Clone, Copy)]
pub(crate) struct Named<'a> {
    pub hall: Stamp,
    pub late: Result<(), Refusal>,
    pub row: &'a [u8],
    pub message: &'a [u8],
    ghost row_whole: { length row.now ≡ block_size },
    ghost message_whole: { length message.now ≡ block_size },
}

// Whether a block is good: as what the step names, or of another kind.
fn good_block(block: &[u8], right: bool) -> bool
    requires { length block.now ≡ block_size }
    ensures { result ≡ right || known block.now }
{
    right || kind_of(block).is_ok()
}

fn same_hall(hall: Stamp, stamp: Stamp) -> bool
    ensures { result ≡ same_hall hall stamp }
{
    hall.setup == stamp.setup && hall.instance == stamp.instance
}

fn own_row(hall: Stamp, stamp: Stamp) -> bool
    ensures { result ≡ own_row hall stamp }
{
    same_hall(hall, stamp) && stamp.agent == hall.agent
}

impl Named<'_> {
    // What comes before all else: the row is bad, or what the caller found; `right` where the row is
    // good as the step names it.
    fn good_row(&self, right: bool) -> Result<(), Refusal>
        ensures { number_of result ≡ unless (right || known self.now.row.now) bad_block (number_of self.now.late) }
    {
        Refusal::BadBlock.unless(good_block(self.row, right))?;
        self.late
    }

    // The refusals of a step that names a row alone.
    fn row_found(&self, right: bool) -> Result<(), Refusal>
        ensures { number_of result ≡ row_found self.now.hall (number_of self.now.late) self.now.row.now right }
    {
        self.good_row(right)?;
        Refusal::OtherHall.unless(own_row(self.hall, read_stamp(self.row)))?;
        Refusal::WrongMessage.unless(right)
    }

    // The same of a step that names a row and a message.
    fn both_found(&self, right: bool, meant: bool) -> Result<(), Refusal>
        ensures { number_of result ≡ both_found self.now.hall (number_of self.now.late) self.now.row.now right self.now.message.now meant }
    {
        self.good_row(right)?;
        Refusal::BadBlock.unless(good_block(self.message, meant))?;
        Refusal::OtherHall.unless(own_row(self.hall, read_stamp(self.row)))?;
        Refusal::OtherHall.unless(same_hall(self.hall, read_stamp(self.message)))?;
        Refusal::WrongMessage.unless(right && meant)
    }

    #[tactic(auto, using(crate::proofs::Read::good_read))]
    pub(crate) fn own<R: Body>(&self) -> Result<Stamped<R>, Refusal>
        ensures number { number_of result ≡ row_found self.now.hall (number_of self.now.late) self.now.row.now (good R.kind self.now.row.now) }
        ensures held { IfOk result (λ own. own ≡ held_by R.kind self.now.row.now) }
    {
        let own = read::<R>(self.row);
        self.row_found(own.is_ok())?;
        own
    }

    #[tactic(auto, using(crate::proofs::Read::good_read))]
    pub(crate) fn both<R: Body, M: Body>(&self) -> Result<(Stamped<R>, Stamped<M>), Refusal>
        ensures number { number_of result ≡ both_found self.now.hall (number_of self.now.late) self.now.row.now (good R.kind self.now.row.now) self.now.message.now (good M.kind self.now.message.now) }
        ensures held { IfOk result (λ read. (read.0 ≡ held_by R.kind self.now.row.now) × (read.1 ≡ held_by M.kind self.now.message.now)) }
    {
        let own = read::<R>(self.row);
        let heard = read::<M>(self.message);
        self.both_found(own.is_ok(), heard.is_ok())?;
        Ok((own?, heard?))
    }
}
