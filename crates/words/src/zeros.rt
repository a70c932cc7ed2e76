// Runs of zero bytes.
ghost use Rattle.std.specs.Prelude.{◌≡◌, ◌+◌, ◌*◌, ◌<◌, ◌≤◌, length};
ghost use Rattle.words.specs.Bytes.{zero_at, zeros, Spliced};
ghost use Rattle.words.specs.Sums.{words};

use crate::numbers::get_u32;

pub fn zero_bytes(bytes: &[u8], at: usize, n: usize) -> bool
    requires { at + n ≤ length bytes.now }
    ensures { result ≡ zero_at n bytes.now at }
{
    bytes[at..at + n].iter().all(|byte| *byte == 0)
}

// The same four bytes at a time, for the long run behind a body, which no block has more than 126 words of.
// The words are summed and not left at the first that isn't zero: that goes many words at a time.
pub fn zero_words(bytes: &[u8], at: usize, n: usize) -> bool
    requires { (at + 4 * n ≤ length bytes.now) × (n ≤ words) }
    ensures { result ≡ zero_at (4 * n) bytes.now at }
{
    let mut total: u64 = 0;
    // By number: a word's place is computed from it.
    for k in 0..n {
        total += u64::from(get_u32(bytes, at + 4 * k));
    }
    total == 0
}

pub fn put_zeros(bytes: &mut [u8], at: usize, n: usize)
    requires { at + n ≤ length bytes.old }
    ensures { Spliced at (zeros n) bytes.old bytes.new }
{
    bytes[at..at + n].fill(0);
}
