// Parts of a table of bytes, by its words.
ghost use Rattle.std.specs.Prelude.{◌≡◌, List, ℕ, ◌+◌, ◌*◌, ◌≤◌, length};
ghost use Rattle.tables.specs.Parts.{part, with_part};
ghost use Rattle.words.specs.Words.{bytes_of_all, table_of};

use crate::{LittleEndian, decode, encode};

// The words from `from` on, as many as `words` holds.
pub fn load_part<W: LittleEndian>(bytes: &[u8], from: usize, words: &mut [W])
    requires { (from + length words.old) * W.BYTES ≤ length bytes.now }
    ensures { W.numbers words.new ≡ part from (length words.old) (table_of W.BYTES bytes.now) }
{
    let at = from * W::BYTES;
    decode(&bytes[at..], words);
}

// Stores words as those from `from` on.
pub fn store_part<W: LittleEndian>(words: &[W], bytes: &mut [u8], from: usize)
    requires { (from + length words.now) * W.BYTES ≤ length bytes.old }
    ensures { (ws : List ℕ) → bytes.old ≡ bytes_of_all W.BYTES ws
        → bytes.new ≡ bytes_of_all W.BYTES (with_part from (length words.now) ws (W.numbers words.now)) }
{
    let at = from * W::BYTES;
    let end = at + words.len() * W::BYTES;
    encode(words, &mut bytes[at..end]);
}
