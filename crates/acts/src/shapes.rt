// The four shapes of an act, each over the kinds of its blocks: on a row alone or on a row and a
// message, with a message sent or none. What the step itself makes of the records is the caller's.
// Four and not one: a step on one block and a step on two are closures of different types, and one that
// sends nothing has no buffer. The stamp is read before the step takes its block.
ghost use Rattle.std.specs.Prelude.{◌≡◌, ◌≢◌, length};
ghost use Rattle.below.specs.Refusals.{granted, number_of};
ghost use Rattle.blocks.specs.Frame.{block_size};
ghost use Rattle.acts.specs.Shapes.{held_by, Sends, Stays};
ghost use Rattle.acts.specs.Reached.{row_number, both_number};
ghost use Rattle.acts.specs.Named.{stamp_of};

use crate::named::Named;
use below::Refusal;
use blocks::{Body, Stamped, put};
use records::Granted;

pub(crate) fn row_sends<R: Body, S: Body, F: FnOnce(Stamped<R>) -> Result<Granted<R, S>, Refusal>>(
    named: &Named<'_>,
    after: &mut [u8],
    sent: &mut [u8],
    step: F,
) -> Result<bool, Refusal>
    requires callable { F.IsAlwaysCallable step }
    requires after_whole { length after.old ≡ block_size }
    requires sent_whole { length sent.old ≡ block_size }
    ensures refused { row_number R.kind named.now ≢ granted → (number_of result ≡ row_number R.kind named.now) × (after.new ≡ after.old) × (sent.new ≡ sent.old) }
    ensures reached { row_number R.kind named.now ≡ granted → Sends R.kind S.kind (stamp_of named.now.row.now) (F.post step (held_by R.kind named.now.row.now)) after.old sent.old after.new sent.new result }
{
    let own = named.own::<R>()?;
    let stamp = own.stamp;
    let made = step(own)?;
    put(after, stamp, made.row);
    put(sent, stamp, made.sent);
    Ok(true)
}

pub(crate) fn row_keeps<R: Body, F: FnOnce(Stamped<R>) -> Result<R, Refusal>>(
    named: &Named<'_>,
    after: &mut [u8],
    step: F,
) -> Result<bool, Refusal>
    requires callable { F.IsAlwaysCallable step }
    requires after_whole { length after.old ≡ block_size }
    ensures refused { row_number R.kind named.now ≢ granted → (number_of result ≡ row_number R.kind named.now) × (after.new ≡ after.old) }
    ensures reached { row_number R.kind named.now ≡ granted → Stays R.kind (stamp_of named.now.row.now) (F.post step (held_by R.kind named.now.row.now)) after.old after.new result }
{
    let own = named.own::<R>()?;
    let stamp = own.stamp;
    put(after, stamp, step(own)?);
    Ok(false)
}

pub(crate) fn both_send<
    R: Body,
    M: Body,
    S: Body,
    F: FnOnce(Stamped<R>, Stamped<M>) -> Result<Granted<R, S>, Refusal>,
>(named: &Named<'_>, after: &mut [u8], sent: &mut [u8], step: F) -> Result<bool, Refusal>
    requires callable { F.IsAlwaysCallable step }
    requires after_whole { length after.old ≡ block_size }
    requires sent_whole { length sent.old ≡ block_size }
    ensures refused { both_number R.kind M.kind named.now ≢ granted → (number_of result ≡ both_number R.kind M.kind named.now) × (after.new ≡ after.old) × (sent.new ≡ sent.old) }
    ensures reached { both_number R.kind M.kind named.now ≡ granted → Sends R.kind S.kind (stamp_of named.now.row.now) (F.post step (held_by R.kind named.now.row.now) (held_by M.kind named.now.message.now)) after.old sent.old after.new sent.new result }
{
    let (own, heard) = named.both::<R, M>()?;
    let stamp = own.stamp;
    let made = step(own, heard)?;
    put(after, stamp, made.row);
    put(sent, stamp, made.sent);
    Ok(true)
}

pub(crate) fn both_keep<R: Body, M: Body, F: FnOnce(Stamped<R>, Stamped<M>) -> Result<R, Refusal>>(
    named: &Named<'_>,
    after: &mut [u8],
    step: F,
) -> Result<bool, Refusal>
    requires callable { F.IsAlwaysCallable step }
    requires after_whole { length after.old ≡ block_size }
    ensures refused { both_number R.kind M.kind named.now ≢ granted → (number_of result ≡ both_number R.kind M.kind named.now) × (after.new ≡ after.old) }
    ensures reached { both_number R.kind M.kind named.now ≡ granted → Stays R.kind (stamp_of named.now.row.now) (F.post step (held_by R.kind named.now.row.now) (held_by M.kind named.now.message.now)) after.old after.new result }
{
    let (own, heard) = named.both::<R, M>()?;
    let stamp = own.stamp;
    put(after, stamp, step(own, heard)?);
    Ok(false)
}
