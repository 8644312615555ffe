// The words of a table of bytes: one by its place, and all of them.
ghost use Rattle.std.specs.Prelude.{◌≡◌, length, get_or};
ghost use Rattle.tables.specs.View.{union_below};
ghost use Rattle.words.specs.Words.{table_of};

use crate::LittleEndian;

// Word i of a table of bytes, `outside` where the table has none.
pub fn word<W: LittleEndian>(bytes: &[u8], i: usize, outside: W) -> W
    ensures { W.number result ≡ get_or (table_of W.BYTES bytes.now) i (W.number outside) }
{
    if i < bytes.len() / W::BYTES {
        W::load(bytes, i * W::BYTES)
    } else {
        outside
    }
}

// Every bit of all words.
pub fn union64(b: &[u8]) -> u64
    ensures { result ≡ union_below (length (table_of 8 b.now)) (λ i. get_or (table_of 8 b.now) i 0) }
{
    let mut bits = 0u64;
    let (words, _) = b.as_chunks::<8>();
    for word in words {
        bits |= u64::from_le_bytes(*word);
    }
    bits
}
