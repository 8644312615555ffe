// Check 3 over the settings and used bytes: the words of each part, in small arrays.
ghost use Rattle.std.specs.Prelude.{◌+◌, ◌*◌, ◌≤◌, T, length, get_or};
ghost use Rattle.tables.specs.Parts.{part};
ghost use Rattle.words.specs.Words.{table_of};
ghost use Rattle.bandwidth_wellformed.specs.Bits.{AtMost};
ghost use Rattle.bandwidth_wellformed.specs.Tables.{Rows, Zeros, Summed};
ghost use Rattle.bandwidth_lent.specs.View.{PartIn, Loads};

use bandwidth_wellformed::{Sums, add_sums, no_sums, span_at, sum_rows};
use words::{LittleEndian, load_part, word};

// Whether n words from the word `from` on are 0.
fn zero_words(b: &[u8], from: usize, n: usize) -> bool
    requires { (from + n) * 4 ≤ length b.now }
    ensures { T result → AtMost (λ k. get_or (part from n (table_of 4 b.now)) k 0) n 0 }
{
    let mut bits = 0u32;
    for i in 0..n {
        bits |= u32::load(b, (from + i) * 4);
    }
    bits == 0
}

// Whether all three tables are 0 there; the first word in force mostly tells.
fn zero_part(active: &[u8], configured: &[u8], used: &[u8], from: usize, n: usize) -> bool
    requires { PartIn active.now configured.now used.now from n }
    ensures { T result → Zeros n (part from n (table_of 4 active.now)) (part from n (table_of 4 configured.now)) (part from n (table_of 4 used.now)) }
{
    if word(active, from, 0u32) != 0 {
        return false;
    }
    if zero_words(active, from, n) {
        zero_words(configured, from, n) & zero_words(used, from, n)
    } else {
        false
    }
}

// Rows of the tables from the word `from` on, with arrays for as many words.
fn sum_loaded(
    active: &[u8],
    configured: &[u8],
    used: &[u8],
    from: usize,
    a: &mut [u32],
    c: &mut [u32],
    u: &mut [u32],
    n: usize,
    rows: usize,
    na: u32,
    q: u32,
) -> Sums
    requires { PartIn active.now configured.now used.now from n × (Loads n a.old c.old u.old
        × Rows na q rows (part from n (table_of 4 active.now)) (part from n (table_of 4 configured.now)) (part from n (table_of 4 used.now))) }
    ensures { Summed na q (part from n (table_of 4 active.now)) (part from n (table_of 4 configured.now)) (part from n (table_of 4 used.now)) rows result }
{
    load_part(active, from, a);
    load_part(configured, from, c);
    load_part(used, from, u);
    sum_rows(a, c, u, rows, na, q)
}

// The rows of one part; one that is all 0 is passed over.
fn sum_part(
    active: &[u8],
    configured: &[u8],
    used: &[u8],
    from: usize,
    n: usize,
    rows: usize,
    na: u32,
    q: u32,
) -> Sums
    requires { PartIn active.now configured.now used.now from n × ((n ≤ 64)
        × Rows na q rows (part from n (table_of 4 active.now)) (part from n (table_of 4 configured.now)) (part from n (table_of 4 used.now))) }
    ensures { Summed na q (part from n (table_of 4 active.now)) (part from n (table_of 4 configured.now)) (part from n (table_of 4 used.now)) rows result }
{
    if zero_part(active, configured, used, from, n) {
        return no_sums();
    }
    let mut a = [0u32; 64];
    let mut c = [0u32; 64];
    let mut u = [0u32; 64];
    sum_loaded(
        active,
        configured,
        used,
        from,
        &mut a[..n],
        &mut c[..n],
        &mut u[..n],
        n,
        rows,
        na,
        q,
    )
}

// All rows, part by part.
pub fn sum_bytes(active: &[u8], configured: &[u8], used: &[u8], nr: usize, na: u32, q: u32) -> Sums
    requires { PartIn active.now configured.now used.now 0 (nr * na) × Rows na q nr (table_of 4 active.now) (table_of 4 configured.now) (table_of 4 used.now) }
    ensures { Summed na q (table_of 4 active.now) (table_of 4 configured.now) (table_of 4 used.now) nr result }
{
    let mut sums = no_sums();
    let mut r = 0usize;
    while r < nr {
        let s = span_at(r, nr, na);
        let next = s.next;
        let more = sum_part(
            active,
            configured,
            used,
            s.from,
            s.to - s.from,
            next - r,
            na,
            q,
        );
        sums = add_sums(sums, more);
        r = next;
    }
    sums
}
