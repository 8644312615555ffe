// Tables of 64-bit words that are lent as words or as their bytes.
ghost use Rattle.std.specs.Prelude.{◌≡◌, List, ℕ, ◌+◌, ◌*◌, ◌^◌, ◌<◌, ◌≤◌, length, get_or, replicate};
ghost use Rattle.std.proofs.Math.Dec.{lit≤};
ghost use Rattle.tables.specs.Parts.{with_part};
ghost use Rattle.tables.specs.View.{union_below};
ghost use Rattle.words.specs.Words.{table_of, bytes_of_all};

// What a lent table of 64-bit words is made of.
pub trait Storage: Copy {
    // The words of a table; that words fill a table.
    ghost words_in: { List Self → List ℕ };

    ghost fill: { List ℕ → List Self → Type 0 };

    // How many entries of a table a word takes.
    ghost SIZE: { ℕ };

    // How many words a table has.
    fn count(table: &[Self]) -> usize
        ensures is { result ≡ length (words_in table.now) }
        ensures sized { (n : ℕ) → length table.now ≡ n * SIZE → result ≡ n }
        ensures small { result < 2 ^ 63 };

    // Word i, 0 outside.
    fn word_at(table: &[Self], i: usize) -> u64
        ensures { result ≡ get_or (words_in table.now) i 0 };

    // Every bit of all words.
    fn union_of(table: &[Self]) -> u64
        ensures { result ≡ union_below (length (words_in table.now)) (λ i. get_or (words_in table.now) i 0) };

    // Stores words as those from `from` on.
    fn store_words(words: &[u64], table: &mut [Self], from: usize)
        requires { (from + length words.now) * SIZE ≤ length table.old }
        ensures { (ws : List ℕ) → fill ws table.old → fill (with_part from (length words.now) ws words.now) table.new };

    // Sets every word to 0.
    fn clear(table: &mut [Self])
        ensures { (n : ℕ) → length table.old ≡ n * SIZE → fill (replicate n 0) table.new };

    ghost some_entries: { 1 ≤ SIZE };
}

impl Storage for u64 {
    ghost words_in = { λ table. table };

    ghost fill = { λ ws table. table ≡ ws };

    ghost SIZE = { 1 };

    fn count(table: &[u64]) -> usize {
        table.len()
    }

    fn word_at(table: &[u64], i: usize) -> u64 {
        tables::word(table, i, 0)
    }

    fn union_of(table: &[u64]) -> u64 {
        tables::union64(table)
    }

    fn store_words(words: &[u64], table: &mut [u64], from: usize) {
        table[from..from + words.len()].copy_from_slice(words);
    }

    fn clear(table: &mut [u64]) {
        table.fill(0);
    }

    ghost some_entries = { lit≤ tt };
}

impl Storage for u8 {
    ghost words_in = { table_of 8 };

    ghost fill = { λ ws table. table ≡ bytes_of_all 8 ws };

    ghost SIZE = { 8 };

    fn count(table: &[u8]) -> usize {
        table.len() / 8
    }

    fn word_at(table: &[u8], i: usize) -> u64 {
        crate::word(table, i, 0)
    }

    fn union_of(table: &[u8]) -> u64 {
        crate::union64(table)
    }

    fn store_words(words: &[u64], table: &mut [u8], from: usize) {
        crate::store_part(words, table, from);
    }

    fn clear(table: &mut [u8]) {
        table.fill(0);
    }

    ghost some_entries = { lit≤ tt };
}
