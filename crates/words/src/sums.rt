// The two check words of a block.
//
// Word after word, each addition waits for the one before. So the words are taken as three thirds of
// 42: the first sum of each third, and the three thirds laid together, word by word, whose second sum
// is the sum of theirs. What a third adds besides is the first sum before it, once for each word. All of
// it is wrapping addition of 32-bit words, many at a time.
ghost use Rattle.std.specs.Prelude.{◌≡◌, ◌+◌, ◌*◌, ◌≤◌, length, slice_index};
ghost use Rattle.below.specs.Below.{row};
ghost use Rattle.words.specs.Bytes.{number4};
ghost use Rattle.words.specs.Sums.{first_sum, second_sum, word_of, together, first_sum_of, second_sum_of};

use crate::numbers::get_u32;

#[derive(Clone, Copy, Debug, PartialEq, Eq)]
pub struct Sums {
    pub first: u32,
    pub second: u32,
}

// The words of a block before its check words.
pub const WORDS: usize = 126;

const THIRD: usize = 42;

// The first sum of the 42 words at a place, from nothing.
fn third_sum(block: &[u8], at: usize) -> u32
    requires { at + 168 ≤ length block.now }
    ensures { result ≡ first_sum 0 42 (λ k. number4 block.now (at + 4 * k)) }
{
    let mut first: u32 = 0;
    // By the number of the word: its place in the lent bytes is computed from it.
    for k in 0..THIRD {
        first = first.wrapping_add(get_u32(block, at + 4 * k));
    }
    first
}

// The three thirds laid together.
fn thirds_together(block: &[u8]) -> [u32; THIRD]
    requires { 504 ≤ length block.now }
    ensures { result ≡ row 42 (together (word_of block.now)) }
{
    let mut words = [0u32; THIRD];
    // By the number of the word, as above: three places are computed from it.
    for k in 0..THIRD {
        let low = get_u32(block, 4 * k);
        let middle = get_u32(block, 168 + 4 * k);
        let high = get_u32(block, 336 + 4 * k);
        words[k] = low.wrapping_add(middle).wrapping_add(high);
    }
    words
}

// Their second sum, from nothing.
fn second_sum(words: [u32; THIRD]) -> u32
    ensures { result ≡ second_sum 0 42 (λ k. slice_index words k) }
{
    let mut first: u32 = 0;
    let mut second: u32 = 0;
    for word in words {
        first = first.wrapping_add(word);
        second = second.wrapping_add(first);
    }
    second
}

pub fn sums_of(block: &[u8]) -> Sums
    requires { 504 ≤ length block.now }
    ensures { (result.first ≡ first_sum_of block.now) × (result.second ≡ second_sum_of block.now) }
{
    let one: u32 = 1;
    // The first sum before the second third, before the last, and behind it.
    let middle = one.wrapping_add(third_sum(block, 0));
    let high = middle.wrapping_add(third_sum(block, 168));
    let first = high.wrapping_add(third_sum(block, 336));
    let two = one.wrapping_add(middle);
    // What the thirds add besides, once for each of their words.
    let before = two.wrapping_add(high).wrapping_mul(42);
    let inside = second_sum(thirds_together(block));
    Sums {
        first,
        second: before.wrapping_add(inside),
    }
}
