// Little-endian words in bytes, over their width.
ghost use Rattle.std.specs.Prelude.{◌≡◌, List, ℕ, ◌+◌, ◌*◌, ◌<◌, ◌≤◌, length, map, take, drop};
ghost use Rattle.std.proofs.Common.{sym};
ghost use Rattle.std.proofs.Math.Dec.{lit≤};
ghost use Rattle.std.proofs.lemmas.List.{map-id};
ghost use Rattle.words.specs.Words.{word_of, bytes_of, stored};

// A number that stands in bytes, the lowest first.
pub trait LittleEndian: Copy {
    // The number that a word is, and those that a row of words is.
    ghost number: { Self → ℕ };

    ghost numbers: { List Self → List ℕ };

    // How many bytes a word has.
    ghost BYTES: { ℕ };

    const BYTES: usize;

    // The word at `at`.
    fn load(bytes: &[u8], at: usize) -> Self
        requires { at + BYTES ≤ length bytes.now }
        ensures { number result ≡ word_of (take BYTES (drop at bytes.now)) };

    // Stores the word at `at`.
    fn store(self, bytes: &mut [u8], at: usize)
        requires { at + BYTES ≤ length bytes.old }
        ensures { bytes.new ≡ stored BYTES bytes.old at (number self) };

    // The word of a number's low bytes.
    fn low(w: u64) -> Self
        ensures { bytes_of BYTES (number result) ≡ bytes_of BYTES w };

    ghost some_bytes: { 1 ≤ BYTES };

    ghost numbers_are: { (words : List Self) → numbers words ≡ map number words };
}

// The N bytes at `at`. A copy of a slice would keep the compiler from vectorising the loops that load words.
fn chunk<const N: usize>(bytes: &[u8], at: usize) -> [u8; N]
    requires { (0 < N) × (at + N ≤ length bytes.now) }
    ensures { result ≡ take N (drop at bytes.now) }
{
    let (chunks, _) = bytes[at..at + N].as_chunks::<N>();
    chunks[0]
}

// Stores the low byte of `w` at `at`. Bytes are stored one by one, each width as two of half the width: a copy of a slice would keep the compiler from
// vectorising the loops that store words.
fn store_byte(b: &mut [u8], at: usize, w: u64)
    requires { at + 1 ≤ length b.old }
    ensures { b.new ≡ stored 1 b.old at w }
{
    b[at] = (w % 256) as u8;
}

// Stores the 2 low bytes of `w` at `at`.
fn store_2(b: &mut [u8], at: usize, w: u64)
    requires { at + 2 ≤ length b.old }
    ensures { b.new ≡ stored 2 b.old at w }
{
    store_byte(b, at, w);
    store_byte(b, at + 1, w / 256);
}

// Stores the 4 low bytes of `w` at `at`.
fn store_4(b: &mut [u8], at: usize, w: u64)
    requires { at + 4 ≤ length b.old }
    ensures { b.new ≡ stored 4 b.old at w }
{
    store_2(b, at, w);
    store_2(b, at + 2, w / 65536);
}

// Stores the 8 bytes of `w` at `at`.
fn store_8(b: &mut [u8], at: usize, w: u64)
    requires { at + 8 ≤ length b.old }
    ensures { b.new ≡ stored 8 b.old at w }
{
    store_4(b, at, w);
    store_4(b, at + 4, w / 4294967296);
}

impl LittleEndian for u16 {
    ghost number = { λ w. w };

    ghost numbers = { λ ws. ws };

    ghost BYTES = { 2 };

    const BYTES: usize = 2;

    fn load(bytes: &[u8], at: usize) -> u16 {
        u16::from_le_bytes(chunk(bytes, at))
    }

    fn store(self, bytes: &mut [u8], at: usize) {
        store_2(bytes, at, u64::from(self));
    }

    fn low(w: u64) -> u16 {
        (w % 0x1_0000) as u16
    }

    ghost some_bytes = { lit≤ tt };

    ghost numbers_are = { λ ws. sym (map-id ws) };
}

impl LittleEndian for u32 {
    ghost number = { λ w. w };

    ghost numbers = { λ ws. ws };

    ghost BYTES = { 4 };

    const BYTES: usize = 4;

    fn load(bytes: &[u8], at: usize) -> u32 {
        u32::from_le_bytes(chunk(bytes, at))
    }

    fn store(self, bytes: &mut [u8], at: usize) {
        store_4(bytes, at, u64::from(self));
    }

    fn low(w: u64) -> u32 {
        (w % 0x1_0000_0000) as u32
    }

    ghost some_bytes = { lit≤ tt };

    ghost numbers_are = { λ ws. sym (map-id ws) };
}

impl LittleEndian for u64 {
    ghost number = { λ w. w };

    ghost numbers = { λ ws. ws };

    ghost BYTES = { 8 };

    const BYTES: usize = 8;

    fn load(bytes: &[u8], at: usize) -> u64 {
        u64::from_le_bytes(chunk(bytes, at))
    }

    fn store(self, bytes: &mut [u8], at: usize) {
        store_8(bytes, at, self);
    }

    fn low(w: u64) -> u64 {
        w
    }

    ghost some_bytes = { lit≤ tt };

    ghost numbers_are = { λ ws. sym (map-id ws) };
}
