// Fields of one kind, one behind the other: the lines of a page, the slots of a row.
ghost use Rattle.std.specs.Prelude.{◌≡◌, ◌+◌, ◌*◌, ◌≤◌, length};
ghost use Rattle.words.specs.Bytes.{Spliced};
ghost use Rattle.fields.specs.Codecs.{Got, times};

use crate::field::{Field, Read};

pub trait Slot: Field {
    // What a list of them has past its end, where nothing asks.
    ghost past: { Self };

    // One to begin an array with.
    const EMPTY: Self;

    ghost long: { (v : Self) → length (Self.codec.put v) ≡ Self.codec.size };
}

#[inline(always)]
pub fn read_all<T: Slot, const N: usize>(bytes: &[u8], at: usize) -> Read<[T; N]>
    requires { at + T.SIZE * N ≤ length bytes.now }
    ensures { Got (times N T.past T.codec) bytes.now at result.value result.exact }
{
    let mut value = [T::EMPTY; N];
    let mut exact = true;
    // By number, for each stands at a place of the lent bytes that is computed from it.
    for k in 0..N {
        let read = T::read(bytes, at + T::SIZE * k);
        value[k] = read.value;
        exact = exact & read.exact;
    }
    Read { value, exact }
}

pub fn put_all<T: Slot, const N: usize>(values: [T; N], bytes: &mut [u8], at: usize)
    requires { at + T.SIZE * N ≤ length bytes.old }
    ensures { Spliced at ((times N T.past T.codec).put values) bytes.old bytes.new }
{
    // By number, as above.
    for k in 0..N {
        values[k].put(bytes, at + T::SIZE * k);
    }
}
