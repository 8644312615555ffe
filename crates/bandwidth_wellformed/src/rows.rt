// Rows: in each, every AT that is named must be shared and have blocks, and the words with blocks must have one Mweight.
ghost use Rattle.std.specs.Prelude.{◌≡◌, ◌+◌, ◌*◌, ◌<◌, ◌≤◌, length, get_or};
ghost use Rattle.tables.specs.Below.{all_below};
ghost use Rattle.tables.specs.View.{union_below};
ghost use Rattle.bandwidth_wellformed.specs.Bits.{mark, absent, row_right, right_at, row_plain};
ghost use Rattle.bandwidth_wellformed.specs.Tables.{Table};

use tables::pick;

// What the word w at AT a says of its row: bit 24 + a, that it has blocks; bit 8 + s, that it shares AT s; bit s, that it names AT s and does not share.
fn mark_of(a: u32, w: u32) -> u32
    requires { a < 8 }
    ensures { result ≡ mark a w }
{
    pick(w % 65536 != 0, 0x0100_0000 << a, 0) | 1 << (w >> 28)
}

// The bits of Mweight that a word with blocks lacks, and its other bits.
fn absent_of(w: u32) -> u32
    ensures { result ≡ absent w }
{
    pick(w % 65536 != 0, w ^ 0x0ff0_0000, 0)
}

// Whether a row is right.
fn row_right<const NA: u32>(t: &[u32], base: usize) -> bool
    requires { (NA ≤ 8) × (base + NA ≤ length t.now) }
    ensures { result ≡ row_right NA t.now base }
{
    let mut m = 0u32;
    let mut some = 0u32;
    let mut less = 0u32;
    for a in 0..NA {
        let w = t[base + a as usize];
        m |= mark_of(a, w);
        some |= w;
        less |= absent_of(w);
    }
    let held = m >> 16 | 1;
    ((m % 65536 | held) - held == 0) & (some & less & 0x0ff0_0000 == 0)
}

// Whether all rows are: without an exit, so that rows are read side by side.
fn rows_right<const NA: u32>(t: &[u32], rows: usize) -> bool
    requires { Table NA rows t.now }
    ensures { result ≡ all_below rows (right_at NA t.now) }
{
    let mut ok = true;
    for r in 0..rows {
        ok &= row_right::<NA>(t, r * NA as usize);
    }
    ok
}

// Whether a row in which no AT but 0 is named is right.
fn row_plain<const NA: u32>(t: &[u32], base: usize) -> bool
    requires { (1 ≤ NA) × (base + NA ≤ length t.now) }
    ensures { result ≡ row_plain NA t.now base }
{
    let mut some = 0u32;
    let mut less = 0u32;
    for a in 0..NA {
        let w = t[base + a as usize];
        some |= w;
        less |= absent_of(w);
    }
    (some & less & 0x0ff0_0000 == 0) & ((t[base] % 65536 != 0) | (some >> 28 == 0))
}

// The same of all rows.
fn rows_plain<const NA: u32>(t: &[u32], rows: usize) -> bool
    requires { Table NA rows t.now }
    ensures { result ≡ all_below rows (λ k. row_plain NA t.now (k * NA)) }
{
    let mut ok = true;
    for r in 0..rows {
        ok &= row_plain::<NA>(t, r * NA as usize);
    }
    ok
}

// Whether all rows of a table with the bits `any` are right: the plain ones are found at once.
fn rows_by<const NA: u32>(t: &[u32], rows: usize, any: u32) -> bool
    requires { Table NA rows t.now × (any ≡ union_below (length t.now) (λ k. get_or t.now k 0)) }
    ensures { result ≡ all_below rows (right_at NA t.now) }
{
    let plain = (any >> 28 == 0) | (any >> 28 == 8);
    (plain && rows_plain::<NA>(t, rows)) || rows_right::<NA>(t, rows)
}

// The same; rows without Mweights in which no AT is named are right, and so are rows of one word that names none.
pub fn rows_ok(t: &[u32], rows: usize, na: u32, any: u32) -> bool
    requires { Table na rows t.now × (any ≡ union_below (length t.now) (λ k. get_or t.now k 0)) }
    ensures { result ≡ all_below rows (right_at na t.now) }
{
    if any >> 20 == 0 {
        return true;
    }
    match na {
        1 => any >> 28 == 0 || rows_right::<1>(t, rows),
        2 => rows_by::<2>(t, rows, any),
        3 => rows_by::<3>(t, rows, any),
        4 => rows_by::<4>(t, rows, any),
        5 => rows_by::<5>(t, rows, any),
        6 => rows_by::<6>(t, rows, any),
        7 => rows_by::<7>(t, rows, any),
        _ => rows_by::<8>(t, rows, any),
    }
}
