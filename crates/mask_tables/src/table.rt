// Masks of n words each in a lent table of words or of bytes.
ghost use Rattle.std.specs.Prelude.{◌≡◌, List, ◌++◌, ℕ, ◌+◌, ◌-◌, ◌*◌, ◌^◌, ◌≤◌, cond, IsTrue, length, get_or, replicate};
ghost use Rattle.tables.specs.Parts.{with_part};
ghost use Rattle.tables.specs.View.{union_below};
ghost use Rattle.numbers.specs.Numbers.{words_for, number_in, words_of, number_at, words_of_all};

use crate::all_set;
use words::Storage;

// The mask whose words begin at word `from`.
pub fn load<S: Storage>(masks: &[S], from: usize, n: usize) -> [u64; 16]
    requires { (n ≤ 16) × (from ≤ 1048576) }
    ensures { number_in result ≡ number_at n (S.words_in masks.now) from }
{
    let mut mask = [0u64; 16];
    for i in 0..n {
        mask[i] = S::word_at(masks, from + i);
    }
    mask
}

// Stores the n low words of a mask as those that begin at word `from`.
pub fn store<S: Storage>(masks: &mut [S], from: usize, n: usize, mask: &[u64])
    requires { (n ≤ length mask.now) × ((from + n) * S.SIZE ≤ length masks.old) }
    ensures { (ws : List ℕ) → S.fill ws masks.old → S.fill (with_part from n ws (words_of n (number_in mask.now))) masks.new }
{
    S::store_words(&mask[..n], masks, from);
}

// The mask whose words begin at word `from` where b holds, else `mask`.
pub fn load_if<S: Storage>(
    b: bool,
    masks: &[S],
    from: usize,
    n: usize,
    mask: [u64; 16],
) -> [u64; 16]
    requires { (n ≤ 16) × (from ≤ 1048576) }
    ensures { number_in result ≡ cond b (number_at n (S.words_in masks.now) from) (number_in mask) }
{
    if b { load(masks, from, n) } else { mask }
}

// Stores the n low words of a mask where b holds.
pub fn store_if<S: Storage>(b: bool, masks: &mut [S], from: usize, n: usize, mask: &[u64])
    requires { (n ≤ length mask.now) × (IsTrue b → (from + n) * S.SIZE ≤ length masks.old) }
    ensures { (ws : List ℕ) → S.fill ws masks.old
        → S.fill (cond b (with_part from n ws (words_of n (number_in mask.now))) ws) masks.new }
{
    if b {
        store(masks, from, n, mask);
    }
}

// Every bit of the highest words of all masks.
pub fn tops<S: Storage>(masks: &[S], n: usize) -> u64
    requires { (1 ≤ n) × (n ≤ 16) }
    ensures { (k : ℕ) → length masks.now ≡ k * n * S.SIZE → result ≡ union_below k (λ p. get_or (S.words_in masks.now) (p * n + (n - 1)) 0) }
{
    let end = S::count(masks);
    if n == 1 {
        return S::union_of(masks);
    }
    let mut bits = 0u64;
    let mut at = n - 1;
    while at < end {
        bits |= S::word_at(masks, at);
        at += n;
    }
    bits
}

// The first k masks have all of `c` bits, the others none.
pub fn fill_masks<S: Storage>(masks: &mut [S], k: usize, c: u64)
    requires { (1 ≤ c) × ((c ≤ 1024) × (k * words_for c * S.SIZE ≤ length masks.old)) }
    ensures { (m : ℕ) → length masks.old ≡ (k + m) * words_for c * S.SIZE
        → S.fill (words_of_all (words_for c) (replicate k (2 ^ c - 1) ++ replicate m 0)) masks.new }
{
    let n = crate::words_for(c) as usize;
    let mask = all_set(c);
    S::clear(masks);
    for i in 0..k {
        store(masks, i * n, n, &mask);
    }
}
