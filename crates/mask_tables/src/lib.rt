// Masks of several words, the lowest first: a mask as 16 words, and masks of n words each in a lent table of words or of bytes.
#![tactic(auto)]

mod table;

ghost use Rattle.std.specs.Prelude.{◌≡◌, ℕ, ◌-◌, ◌*◌, ◌%◌, ◌^◌, ◌≤◌, ◌<◌, eqb, length};
ghost use Rattle.numbers.specs.Numbers.{words_for, word_of, put_word, bits_below, number_in, words_of};
ghost use Rattle.mask_tables.specs.Masks.{TopsOf};

use fields::ones;
pub use table::{fill_masks, load, load_if, store, store_if, tops};
use tables::{put, union64, word};

// How many words a mask of `c` bits has.
pub fn words_for(c: u64) -> u64
    requires { (1 ≤ c) × (c ≤ 1024) }
    ensures { (result ≡ words_for c) × ((1 ≤ result) × (result ≤ 16)) }
{
    (c + 63) / 64
}

// The highest word of the mask that has `c` bits, all of them set.
pub fn highest(c: u64) -> u64
    requires { (1 ≤ c) × (c ≤ 1024) }
    ensures { result ≡ 2 ^ (c - 64 * (words_for c - 1)) - 1 }
{
    ones((c - 64 * (words_for(c) - 1)) as u32)
}

// Word i of a mask.
pub fn mask_word(mask: &[u64], i: u64) -> u64
    ensures { result ≡ word_of (number_in mask.now) i }
{
    word(mask, i as usize, 0)
}

// Stores w, without bits `c` and above, as word i of a mask of `c` bits.
pub fn put_word(mask: &mut [u64], c: u64, i: u64, w: u64)
    requires { (length mask.old ≡ 16) × ((c ≤ 1024) × (64 * i < c)) }
    ensures { (length mask.new ≡ 16)
        × (number_in mask.old < 2 ^ c → number_in mask.new ≡ put_word (number_in mask.old) i w % 2 ^ c) }
{
    if i + 1 == words_for(c) {
        put(mask, i as usize, w & highest(c));
    } else {
        put(mask, i as usize, w);
    }
}

// Whether a mask has no bit `c` or above.
pub fn mask_fits(mask: &[u64], c: u64) -> bool
    requires { (length mask.now ≡ 16) × ((1 ≤ c) × (c ≤ 1024)) }
    ensures { result ≡ eqb (number_in mask.now) (number_in mask.now % 2 ^ c) }
{
    let n = words_for(c) as usize;
    (union64(&mask[n..]) == 0) & (mask[n - 1] <= highest(c))
}

// Whether no bit of a mask is set.
pub fn is_empty(mask: &[u64]) -> bool
    ensures { result ≡ eqb (number_in mask.now) 0 }
{
    union64(mask) == 0
}

// How many bits of a mask are set.
pub fn count_bits(mask: &[u64]) -> u64
    requires { length mask.now ≤ 16 }
    ensures { (c : ℕ) → number_in mask.now < 2 ^ c → result ≡ bits_below c (number_in mask.now) }
{
    mask.iter().map(|w| w.count_ones() as u64).sum()
}

// The mask that has `c` bits, all of them set.
pub fn all_set(c: u64) -> [u64; 16]
    requires { (1 ≤ c) × (c ≤ 1024) }
    ensures { result ≡ words_of 16 (2 ^ c - 1) }
{
    let n = words_for(c) as usize;
    let mut mask = [0u64; 16];
    mask[..n].fill(u64::MAX);
    mask[n - 1] = highest(c);
    mask
}

// Whether no mask of a table has a bit `c` or above, by the union of their highest words.
pub fn tops_fit(bits: u64, c: u64) -> bool
    requires { (1 ≤ c) × (c ≤ 1024) }
    ensures { TopsOf c bits result }
{
    bits <= highest(c)
}
