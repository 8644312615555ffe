// Little-endian words of 16, 32 and 64 bits in bytes.
#![tactic(auto)]

mod endian;
mod entry;
mod part;
mod storage;

ghost use Rattle.std.specs.Prelude.{◌≡◌, ◌+◌, ◌*◌, ◌≤◌, length};
ghost use Rattle.words.specs.Words.{words_of, bytes_of_all, stored, with_word};

pub use endian::LittleEndian;
pub use entry::{union64, word};
pub use part::{load_part, store_part};
pub use storage::Storage;

// The words at the front of `bytes`, as many as `words` holds.
pub fn decode<W: LittleEndian>(bytes: &[u8], words: &mut [W])
    requires { length words.old * W.BYTES ≤ length bytes.now }
    ensures { W.numbers words.new ≡ words_of W.BYTES (length words.old) bytes.now }
{
    for (i, word) in words.iter_mut().enumerate() {
        *word = W::load(bytes, i * W::BYTES);
    }
}

// The bytes of `words`, which fill `bytes`.
pub fn encode<W: LittleEndian>(words: &[W], bytes: &mut [u8])
    requires { length words.now * W.BYTES ≡ length bytes.old }
    ensures { bytes.new ≡ bytes_of_all W.BYTES (W.numbers words.now) }
{
    for (i, word) in words.iter().enumerate() {
        word.store(bytes, i * W::BYTES);
    }
}

// Stores w as word i; a place outside changes nothing.
pub fn put<W: LittleEndian>(bytes: &mut [u8], i: usize, w: W)
    ensures { bytes.new ≡ with_word W.BYTES bytes.old i (W.number w) }
{
    if i < bytes.len() / W::BYTES {
        w.store(bytes, i * W::BYTES);
    }
}

// Stores the low bytes of w at `at`.
pub fn store_low<W: LittleEndian>(bytes: &mut [u8], at: usize, w: u64)
    requires { at + W.BYTES ≤ length bytes.old }
    ensures { bytes.new ≡ stored W.BYTES bytes.old at w }
{
    W::low(w).store(bytes, at);
}

// Stores the low bytes of w as word i; a place outside changes nothing.
pub fn put_low<W: LittleEndian>(bytes: &mut [u8], i: usize, w: u64)
    ensures { bytes.new ≡ with_word W.BYTES bytes.old i w }
{
    put(bytes, i, W::low(w));
}
